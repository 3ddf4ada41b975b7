//! A decision: the object of a certificate for one domain.

ghost use Rattle.std.specs.Prelude.{◌≡◌, ◌≤◌, length, option_map};
ghost use Rattle.certificate_text.specs.Puts.{PutsData, PutsMember, PutsMembers};
ghost use Rattle.certificate_text.specs.Bounds.{count_data};
ghost use Rattle.certificate_text.specs.Reading.{at_key, number_to, Says};
ghost use Rattle.certificate_text.specs.Said.{bare_said, certificate_said, chosen_said, claim_by, claim_said, empty_said, selection_said, unless_many};
ghost use Rattle.certificate_text.specs.SettingsSaid.{settings_said};
ghost use Rattle.serde_json.specs.View.{view};
ghost use Rattle.certificate_text.specs.Told.{claim_data, decision_data, lines_data, proof_members, settings_data, verdict_members, verdict_name};

use crate::json_writer::Writer;
use crate::member::put_text;
use crate::part::{CertificatePart, Put, put_list_at};
use crate::path::put_path;
use crate::reading::{expect_object, list_at, list_of, number_to, text_at};
use crate::settings::{put_settings, settings_of};
use crate::unread::Unread;
use negotiation_inputs::Platform;
use serde_json::Value;
use std::alloc::{AllocError, Global};
use sysmem_merge::Settings;
use sysmem_tree::{MOST_NODES, Path, Prefix};
use verdict_claims::{Certificate, Chosen, Claim, Lines, Proof, Refutation, Verdict};

impl Put for u8 {
    ghost told = { count_data };

    fn put(&self, out: &mut Writer) -> Result<(), AllocError> {
        out.u64(u64::from(*self))
    }
}

impl CertificatePart for u8 {
    ghost said = { number_to 255 };

    fn read(_alloc: Global, value: &Value) -> Result<u8, Unread> {
        match number_to(value, u64::from(u8::MAX)) {
            Some(choice) => Ok(choice as u8),
            None => Err(Unread::WrongForm),
        }
    }
}

/// Puts what was decided of the domain whose root is at the path: a claim, or that memory was
/// refused.
pub(crate) fn put_decision(
    out: &mut Writer,
    text: &mut String,
    platform: &Platform,
    path: &Path,
    claim: Option<&Claim>,
) -> Result<(), AllocError>
    ensures { PutsData result out.old out.new
        (decision_data platform.now path.now (option_map (λ c. c.now) claim.entry)) }
{
    match claim {
        Some(claim) => put_claim(out, text, platform, path, &claim.verdict, &claim.proof),
        None => put_claim(
            out,
            text,
            platform,
            path,
            &Verdict::NoMemory,
            &Proof::Nothing,
        ),
    }
}

/// Puts the claim about the domain whose root is at the path: its verdict, and what is to prove it.
pub(crate) fn put_claim(
    out: &mut Writer,
    text: &mut String,
    platform: &Platform,
    path: &Path,
    verdict: &Verdict,
    proof: &Proof,
) -> Result<(), AllocError>
    ensures { PutsData result out.old out.new
        (claim_data platform.now path.now verdict.now proof.now) }
{
    out.begin_object()?;
    out.key("domain")?;
    put_path(out, text, path.ordinals())?;
    put_proof_members(out, proof)?;
    put_verdict_members(out, platform, verdict)?;
    put_text(out, "verdict", verdict_name(verdict))?;
    out.end_object()
}

pub(crate) fn verdict_name(verdict: &Verdict) -> &'static str
    ensures { result.now ≡ verdict_name verdict.now }
{
    match verdict {
        Verdict::Chosen(_) => "chosen",
        Verdict::IntersectionEmpty => "empty",
        Verdict::TooMany => "too_many",
        Verdict::Failed => "failed",
        Verdict::NoMemory => "no_memory",
    }
}

fn put_proof_members(out: &mut Writer, proof: &Proof) -> Result<(), AllocError>
    ensures { PutsMembers result out.old out.new (proof_members proof.now) }
{
    match proof {
        Proof::Choice(certificate) => put_certificate(out, certificate),
        Proof::Empty(refutation) => put_refutation(out, refutation),
        Proof::Nothing => Ok(()),
    }
}

fn put_certificate(out: &mut Writer, certificate: &Certificate) -> Result<(), AllocError>
    ensures { PutsMembers result out.old out.new (proof_members (Proof.Choice certificate.now)) }
{
    put_list_at(out, "earlier", certificate.earlier())?;
    put_lines_at(out, "offers", certificate.offers())?;
    put_lines_at(out, "places", certificate.places())
}

fn put_lines_at(out: &mut Writer, key: &str, lines: &Lines) -> Result<(), AllocError>
    ensures { PutsMember result out.old out.new key.now (lines_data lines.now) }
{
    out.key(key)?;
    out.lines(lines)
}

fn put_refutation(out: &mut Writer, refutation: &Refutation) -> Result<(), AllocError>
    ensures { PutsMembers result out.old out.new (proof_members (Proof.Empty refutation.now)) }
{
    out.key("refutation")?;
    out.refutation(refutation.items())
}

fn put_verdict_members(
    out: &mut Writer,
    platform: &Platform,
    verdict: &Verdict,
) -> Result<(), AllocError>
    ensures { PutsMembers result out.old out.new (verdict_members platform.now verdict.now) }
{
    match verdict {
        Verdict::Chosen(chosen) => put_chosen(out, platform, chosen),
        _ => Ok(()),
    }
}

fn put_chosen(out: &mut Writer, platform: &Platform, chosen: &Chosen) -> Result<(), AllocError>
    ensures { PutsMembers result out.old out.new
        (verdict_members platform.now (Verdict.Chosen chosen.now)) }
{
    put_list_at(out, "selection", chosen.selection().choices())?;
    put_settings_at(out, "settings", platform, chosen.settings())
}

fn put_settings_at(
    out: &mut Writer,
    key: &str,
    platform: &Platform,
    settings: Settings,
) -> Result<(), AllocError>
    ensures { PutsMember result out.old out.new key.now (settings_data platform.now settings) }
{
    out.key(key)?;
    put_settings(out, platform, settings)
}

/// Reads what an object of a certificate claims, and the path of the domain that it is about.
///
/// Whether the claim is true isn't tested. A name, a kind, a key or a range that is wrong anywhere
/// in the object is `WrongForm`.
pub fn read_proof(
    alloc: Global,
    platform: &Platform,
    value: &Value,
) -> Result<(Path, Claim), Unread>
    ensures { Says result (claim_said platform.now (view value.now)) }
{
    let Some(path) = value.get("domain") else {
        return Err(Unread::WrongForm);
    };
    let path = Path::read(alloc, path)?;
    let name = text_at(value, "verdict").ok_or(Unread::WrongForm)?;
    let claim = claim_by(alloc, platform, name, value)?;
    Ok((path, claim))
}

/// The claim with a verdict of this name.
fn claim_by(alloc: Global, platform: &Platform, name: &str, value: &Value) -> Result<Claim, Unread>
    ensures { Says result (claim_by platform.now name.now (view value.now)) }
{
    match name {
        "chosen" => chosen_of(alloc, platform, value),
        "empty" => empty_of(alloc, value),
        "too_many" => bare_of(Verdict::TooMany, value),
        "no_memory" => bare_of(Verdict::NoMemory, value),
        _ => Err(Unread::WrongForm),
    }
}

/// A verdict that needs no proof.
fn bare_of(verdict: Verdict, value: &Value) -> Result<Claim, Unread>
    ensures { Says result (bare_said verdict (view value.now)) }
{
    expect_object(value, 2).ok_or(Unread::WrongForm)?;
    Ok(Claim {
        verdict,
        proof: Proof::Nothing,
    })
}

fn empty_of(alloc: Global, value: &Value) -> Result<Claim, Unread>
    ensures { Says result (empty_said (view value.now)) }
{
    expect_object(value, 3).ok_or(Unread::WrongForm)?;
    let refutation = Refutation::new(list_at(alloc, value, "refutation")?);
    Ok(Claim {
        verdict: Verdict::IntersectionEmpty,
        proof: Proof::Empty(refutation),
    })
}

fn chosen_of(alloc: Global, platform: &Platform, value: &Value) -> Result<Claim, Unread>
    ensures { Says result (chosen_said platform.now (view value.now)) }
{
    expect_object(value, 7).ok_or(Unread::WrongForm)?;
    let certificate = certificate_of(alloc, value)?;
    let selection = selection_at(alloc, value, "selection")?;
    let settings = settings_at(platform, value, "settings").ok_or(Unread::WrongForm)?;
    Ok(Claim {
        verdict: Verdict::Chosen(Chosen::new(selection, settings)),
        proof: Proof::Choice(certificate),
    })
}

fn certificate_of(alloc: Global, value: &Value) -> Result<Certificate, Unread>
    ensures { Says result (certificate_said (view value.now)) }
{
    let earlier = list_at(alloc, value, "earlier")?;
    let offers = list_at(alloc, value, "offers")?;
    let places = list_at(alloc, value, "places")?;
    Ok(Certificate::new(earlier, Lines::new(offers), Lines::new(places)))
}

fn settings_at(platform: &Platform, value: &Value, key: &str) -> Option<Settings>
    ensures { result ≡ at_key key.now (settings_said platform.now) (view value.now) }
{
    settings_of(platform, value.get(key)?)
}

fn selection_at(alloc: Global, value: &Value, key: &str) -> Result<Prefix, Unread>
    ensures { Says result (at_key key.now selection_said (view value.now)) }
{
    match value.get(key) {
        Some(list) => selection_of(alloc, list),
        None => Err(Unread::WrongForm),
    }
}

fn selection_of(alloc: Global, value: &Value) -> Result<Prefix, Unread>
    ensures { Says result (selection_said (view value.now)) }
{
    let choices: Vec<u8> = list_of(alloc, value)?;
    prefix_of(choices.as_slice()).ok_or(Unread::WrongForm)
}

/// These choices, if they are at most 128.
fn prefix_of(choices: &[u8]) -> Option<Prefix>
    ensures { result ≡ unless_many choices.now }
{
    if choices.len() > MOST_NODES {
        return None;
    }
    Some(few_choices(choices))
}

fn few_choices(choices: &[u8]) -> Prefix
    requires { length choices.now ≤ MOST_NODES }
    ensures { result ≡ choices.now }
{
    let mut prefix = Prefix::new();
    for choice in choices {
        prefix.push(*choice);
    }
    prefix
}
