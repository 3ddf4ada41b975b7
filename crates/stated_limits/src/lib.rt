//! The numbers that limits are. Code, clauses and definitions name a limit; here stands what each
//! is by the profile, so that a changed constant is refused.
#![tactic(auto)]

ghost use Rattle.std.specs.Prelude.{◌≡◌, ◌<◌, ◌↔◌, List, Option, Some, None, length, nat_le, if◌then◌else◌};
ghost use Rattle.flat_negotiation.specs.Unsettled.{AreUnsettled};
ghost use Rattle.flat_negotiation.specs.declared.unsettled.Unsettled.TheVariants as why;
ghost use Rattle.flat_negotiation.specs.declared.parts.flat.FlatParticipant.{FlatParticipant};
ghost use Rattle.flat_negotiation.specs.declared.parts.flat.FlatPlatform.{FlatPlatform};
ghost use Rattle.negotiation_inputs.specs.declared.constraints.TheConstants.{MOST_ENTRIES, MOST_MULTIPLE};
ghost use Rattle.negotiation_inputs.specs.declared.heaps.TheConstants.{LONGEST_HEAP_TYPE};
ghost use Rattle.script_reading.specs.Script.{few_calls, items_len};
ghost use Rattle.serde_json.specs.Data.{Items};
ghost use Rattle.sysmem_counts.specs.declared.bounds.TheConstants.{BUFFER_COUNT_LIMIT};
ghost use Rattle.sysmem_memory.specs.declared.bounds.TheConstants.{MOST_HEAPS};
ghost use Rattle.sysmem_merge.specs.declared.sum.TheConstants.{MOST_ADDED};
ghost use Rattle.sysmem_search.specs.declared.wide.TheConstants.{MOST_WORKERS};
ghost use Rattle.sysmem_tree.specs.declared.tree.TheConstants.{MOST_NODES};
ghost use Rattle.value_sources.specs.declared.counting.TheConstants.{MOST_COUNTED};
ghost use Rattle.verdict_claims.specs.declared.verdict.TheConstants.{MOST_SELECTIONS};

/// What participants and platforms may state at most.
pub fn limits_of_inputs()
    ensures buffers { BUFFER_COUNT_LIMIT ≡ 128 }
    ensures heaps { MOST_HEAPS ≡ 64 }
    ensures entries { MOST_ENTRIES ≡ 64 }
    ensures heap_type { LONGEST_HEAP_TYPE ≡ 128 }
    ensures multiple { MOST_MULTIPLE ≡ 65536 }
{}

/// How many nodes a collection has at most, and so how many participants an explanation counts; how
/// many selections a decision goes through, and among how many workers.
pub fn limits_of_collections()
    ensures nodes { MOST_NODES ≡ 128 }
    ensures counted { MOST_COUNTED ≡ MOST_NODES }
    ensures selections { MOST_SELECTIONS ≡ 4096 }
    ensures workers { MOST_WORKERS ≡ 64 }
{}

/// How many participants are folded into one sum or aggregate at most, how many a negotiation of
/// structs has, and how many calls a script.
pub fn limits_of_lists()
    ensures added { MOST_ADDED ≡ 1024 }
    ensures participants { (flat : FlatPlatform) (flats : List FlatParticipant)
        → AreUnsettled flat flats why.TooMany ↔ 1024 < length flats }
    ensures calls { (calls : Items)
        → few_calls calls ≡ (if nat_le (items_len calls) 4096 then Some calls else None) }
{}
