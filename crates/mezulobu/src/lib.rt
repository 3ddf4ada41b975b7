//! The negotiator for C: the bytes of a script in, the bytes of its report and of its certificate
//! out, or of what it means in words; a record in, what is wrong with it in words out; and a list of
//! participants as structs in, their settings as a struct out.
//!
//! `c/mezulobu.c` is what a program calls: it turns null pointers into what these functions take.
#![tactic(auto)]

mod answers;
mod explained;
mod live;
mod records;
mod words;

ghost use Rattle.std.specs.Prelude.{◌≡◌, ◌⊎◌, ℕ, List};
ghost use Rattle.mezulobu.specs.Ends.{Ends, EndsBoth};
ghost use Rattle.flat_negotiation.specs.Layout.{IsLayout, IsNoLayout};
ghost use Rattle.mezulobu.specs.Explains.{ExplanationSays};
ghost use Rattle.mezulobu.specs.Negotiated.{Negotiates, status_of};
ghost use Rattle.mezulobu.specs.Says.{CheckSays, ProvedRunSays, RunSays};

use crate::answers::{check_answer, proved_run_answer, run_answer};
use crate::explained::explanation_answer;
use caller_buffers::{hand_out, hand_out_both};
use flat_negotiation::{
    FlatLayout, FlatParticipant, FlatPlatform, FlatRefusal, FlatSettings, Unsettled, layout_of,
    negotiate, refusal_of, settings_of,
};
use live_calls::{DONE, NO, NO_MEMORY, REFUSED};
use std::alloc::Global;

/// The room that a caller gives is too small for the text.
pub(crate) const TOO_SMALL: u32 = 5;

/// Replays a script: the text is its report, or the words of its first fault.
#[unsafe(no_mangle)]
pub extern "C" fn mezulobu_rt_run(
    alloc: Global,
    script: &[u8],
    text: &mut [u8],
    size: &mut usize,
) -> u32
    ensures { Ends (RunSays script.now) text.old text.new size.new result }
{
    let Ok(answer) = run_answer(alloc, script) else {
        *size = 0;
        return NO_MEMORY;
    };
    *size = answer.text.len();
    if hand_out(&answer.text, text) {
        answer.status
    } else {
        TOO_SMALL
    }
}

/// Replays a script, and hands out the certificate of its decisions too.
#[unsafe(no_mangle)]
pub extern "C" fn mezulobu_rt_run_with_proof(
    alloc: Global,
    script: &[u8],
    text: &mut [u8],
    size: &mut usize,
    certificate: &mut [u8],
    certificate_size: &mut usize,
) -> u32
    ensures { EndsBoth (ProvedRunSays script.now) text.old text.new
        certificate.old certificate.new size.new certificate_size.new result }
{
    let Ok(answer) = proved_run_answer(alloc, script) else {
        *size = 0;
        *certificate_size = 0;
        return NO_MEMORY;
    };
    *size = answer.text.len();
    *certificate_size = answer.certificate.len();
    if hand_out_both(&answer.text, text, &answer.certificate, certificate) {
        answer.status
    } else {
        TOO_SMALL
    }
}

/// Tests a certificate against a script: the text is the answer, or the words of what is refused.
#[unsafe(no_mangle)]
pub extern "C" fn mezulobu_rt_check(
    alloc: Global,
    script: &[u8],
    certificate: &[u8],
    text: &mut [u8],
    size: &mut usize,
) -> u32
    ensures { Ends (CheckSays script.now certificate.now) text.old text.new size.new result }
{
    let Ok(answer) = check_answer(alloc, script, certificate) else {
        *size = 0;
        return NO_MEMORY;
    };
    *size = answer.text.len();
    if hand_out(&answer.text, text) {
        answer.status
    } else {
        TOO_SMALL
    }
}

/// The same for a caller who wants the status alone.
#[unsafe(no_mangle)]
pub extern "C" fn mezulobu_rt_check_status(alloc: Global, script: &[u8], certificate: &[u8]) -> u32
    ensures { (result ≡ 4)
        ⊎ ((text : List ℕ) × CheckSays script.now certificate.now result text) }
{
    match check_answer(alloc, script, certificate) {
        Ok(answer) => answer.status,
        Err(_) => NO_MEMORY,
    }
}

/// Explains a script: the text says what it means, or where its first fault stands, in words or as
/// objects of JSON. The name of its file, in which bytes that are no UTF-8 are replaced, stands
/// before lines and columns.
#[unsafe(no_mangle)]
pub extern "C" fn mezulobu_rt_explain(
    alloc: Global,
    script: &[u8],
    file: &[u8],
    is_json: bool,
    is_strict: bool,
    text: &mut [u8],
    size: &mut usize,
) -> u32
    ensures { Ends (ExplanationSays script.now is_strict) text.old text.new size.new result }
{
    let Ok(answer) = explanation_answer(alloc, script, file, is_json, is_strict) else {
        *size = 0;
        return NO_MEMORY;
    };
    *size = answer.text.len();
    if hand_out(&answer.text, text) {
        answer.status
    } else {
        TOO_SMALL
    }
}

/// The best settings for a list of participants, or who is in the way.
#[unsafe(no_mangle)]
pub extern "C" fn mezulobu_rt_negotiate(
    alloc: Global,
    platform: &FlatPlatform<'_>,
    participants: &[FlatParticipant<'_>],
    settings: &mut FlatSettings,
    refusal: &mut FlatRefusal,
) -> u32
    ensures { Negotiates platform.now participants.now settings.old settings.new
        refusal.old refusal.new result }
{
    match negotiate(alloc, platform, participants) {
        Ok(settled) => {
            *settings = settings_of(settings.struct_size, &settled);
            DONE
        }
        Err(unsettled) => {
            *refusal = refusal_of(refusal.struct_size, &unsettled);
            status_of(&unsettled)
        }
    }
}

/// The status of why there are no settings.
fn status_of(unsettled: &Unsettled) -> u32
    ensures { result ≡ status_of unsettled.now }
{
    match unsettled {
        Unsettled::NoMemory => NO_MEMORY,
        Unsettled::TooMany => REFUSED,
        Unsettled::Platform(_) => REFUSED,
        Unsettled::Participant(_, _) => REFUSED,
        Unsettled::Unmet(_) => NO,
    }
}

/// The planes of an image of a format and a modifier, by their codes, with rows of `pitch` bytes
/// and its height in pixels.
#[unsafe(no_mangle)]
pub extern "C" fn mezulobu_rt_planes(
    format: u32,
    modifier: u64,
    pitch: u32,
    height: u32,
    layout: &mut FlatLayout,
) -> u32
    ensures known { (result ≡ 0) ⊎ (result ≡ 3) }
    ensures done { result ≡ 0 → IsLayout format modifier pitch height layout.new }
    ensures refused { result ≡ 3 → IsNoLayout format modifier pitch height }
    ensures kept { result ≡ 3 → layout.new ≡ layout.old }
{
    match layout_of(format, modifier, pitch, height) {
        Some(planes) => {
            *layout = planes;
            DONE
        }
        None => REFUSED,
    }
}
