//! Reads the heaps of a platform.

ghost use Rattle.std.specs.Prelude.{◌≡◌};
ghost use Rattle.serde_json.specs.View.{view, items_view};
ghost use Rattle.sysmem_counts.specs.declared.field.Field.TheVariants.{Domains};
ghost use Rattle.record_reading.specs.Reading.Fields.{seen_by, read_each, required, Reads};
ghost use Rattle.record_reading.specs.Reading.Heaps.{no_domains, with_domain, with_named, domains_of, heap_of, with_heap, heaps_of};

use super::field::{add, expect_object, flag_or, list_of, stated};
use super::heap::heap_name_of;
use super::list::{Listed, list_in};
use super::name::name_of;
use crate::fault::{Code, Fault, FaultPlace};
use negotiation_inputs::{has_domains, has_heap};
use serde_json::Value;
use std::alloc::Global;
use sysmem_counts::Field;
use sysmem_memory::{CoherencyDomain, CoherencyDomains, HeapInfo, MOST_HEAPS};

fn with_domain(mut domains: CoherencyDomains, domain: CoherencyDomain) -> CoherencyDomains
    ensures { result ≡ with_domain domains domain }
{
    match domain {
        CoherencyDomain::Cpu => domains.cpu = true,
        CoherencyDomain::Ram => domains.ram = true,
        CoherencyDomain::Inaccessible => domains.inaccessible = true,
    }
    domains
}

fn with_named(domains: CoherencyDomains, value: &Value) -> Result<CoherencyDomains, Fault>
    ensures { result ≡ with_named domains (view value.now) }
{
    let domain = name_of(value, Field::Domains)?;
    if domains.has(domain) {
        return Err(Fault::of(Code::BadPlatformList, Field::Domains));
    }
    Ok(with_domain(domains, domain))
}

fn domains_in(list: &[Value]) -> Result<CoherencyDomains, Fault>
    ensures { result ≡ read_each with_named no_domains (items_view list.now) }
{
    let mut domains = CoherencyDomains::NONE;
    for value in list {
        domains = with_named(domains, value)?;
    }
    Ok(domains)
}

fn domains_of(value: &Value) -> Result<CoherencyDomains, Fault>
    ensures { result ≡ domains_of (view value.now) }
{
    let domains = domains_in(list_of(value, Field::Domains)?)?;
    if has_domains(domains) {
        Ok(domains)
    } else {
        Err(Fault::of(Code::BadPlatformList, Field::Domains))
    }
}

/// The domains of a heap's record, which has to have them.
fn domains_at(object: &Value) -> Result<CoherencyDomains, Fault>
    ensures { result ≡ required Domains domains_of (view object.now) }
{
    domains_of(stated(object, Code::WrongKind, Field::Domains)?)
}

/// The fields of a platform's heap.
pub const HEAP_FIELDS: [Field; 5] = [
    Field::HeapType,
    Field::Id,
    Field::Contiguous,
    Field::Secure,
    Field::Domains,
];

fn heap_of(alloc: Global, object: &Value) -> Result<HeapInfo, Fault>
    ensures { Reads (λ lack. heap_of lack (view object.now)) result }
{
    expect_object(object, FaultPlace::At(Field::Heaps), &HEAP_FIELDS)?;
    let heap = heap_name_of(alloc, object)?;
    let contiguous = flag_or(object, Field::Contiguous, false)?;
    let secure = flag_or(object, Field::Secure, false)?;
    let domains = domains_at(object)?;
    Ok(HeapInfo {
        heap,
        contiguous,
        secure,
        domains,
    })
}

impl Listed for HeapInfo {
    ghost added = { with_heap };

    fn add(alloc: Global, heaps: &mut Vec<HeapInfo>, value: &Value) -> Result<(), Fault> {
        let heap = heap_of(alloc, value)?;
        if MOST_HEAPS <= heaps.len() {
            return Err(Fault::of(Code::TooMany, Field::Heaps));
        }
        if has_heap(heaps, &heap) {
            return Err(Fault::of(Code::BadPlatformList, Field::Heaps));
        }
        add(heaps, heap, Field::Heaps)
    }
}

/// A list of 1 to 64 heaps, no two of one type and id.
pub(super) fn heaps_of(alloc: Global, value: &Value) -> Result<Vec<HeapInfo>, Fault>
    ensures { Reads (λ lack. heaps_of lack (view value.now))
        (seen_by (λ heaps. heaps.items) result) }
{
    let heaps = list_in(alloc, list_of(value, Field::Heaps)?)?;
    if heaps.is_empty() {
        return Err(Fault::of(Code::BadPlatformList, Field::Heaps));
    }
    Ok(heaps)
}
