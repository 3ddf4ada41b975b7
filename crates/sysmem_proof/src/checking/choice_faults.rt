//! The first test that a choice fails, with what is to prove it.

ghost use Rattle.std.specs.Prelude.{◌≡◌, ◌↔◌, Some, None, IsTrue, MatchResult};
ghost use Rattle.sysmem_merge.specs.Settings.{Meets};
ghost use Rattle.verdict_claims.specs.Certificate.{HasNoLines, RefuseBefore};
ghost use Rattle.verdict_claims.specs.Check.{ChoicePasses};
ghost use Rattle.verdict_claims.specs.Matter.{forest, terms};
ghost use Rattle.sysmem_proof.specs.Choice.{FormFaults, SelectedFaults, SelectedPasses};
ghost use Rattle.verdict_claims.specs.Fault.{AreFew, ChoiceFaults, HasFittingLines, IsSelected, LinesFaults};
ghost use Rattle.verdict_claims.specs.Members.{participants};
ghost use Rattle.verdict_claims.specs.Roll.{listed};

use super::checker::Checker;
use super::earlier_faults::earlier_fault;
use super::offers_before::offers_before_fault;
use super::places_before::places_before_fault;
use super::settings_faults::{attached_fault, initial_fault};
use crate::roll::Roll;
use negotiation_inputs::Platform;
use sysmem_merge::Settings;
use sysmem_tree::Prefix;
use verdict_claims::{Base, Certificate, Chosen, No};

/// Whether the certificate has no lines.
fn has_no_lines(certificate: &Certificate) -> bool
    ensures { IsTrue result ↔ HasNoLines certificate.now }
{
    certificate.offers().as_slice().is_empty() && certificate.places().as_slice().is_empty()
}

/// Whether the certificate has lines only where a choice in the domain
/// has some: an attached one has none.
fn has_fitting_lines(checker: &Checker<'_>, certificate: &Certificate) -> bool
    ensures { IsTrue result ↔ HasFittingLines (terms checker.now) certificate.now }
{
    match checker.base() {
        None => true,
        Some(_) => has_no_lines(certificate),
    }
}

/// Of a choice's form: there are few enough selections, it is one, and it has no
/// lines where the settings are given.
fn form_fault(
    checker: &Checker<'_>,
    selection: &Prefix,
    certificate: &Certificate,
) -> Result<(), No>
    ensures { MatchResult result (λ _. AreFew (forest checker.now)
        × IsSelected (forest checker.now) selection.now
        × HasFittingLines (terms checker.now) certificate.now)
        (FormFaults (terms checker.now) (forest checker.now) selection.now certificate.now) }
{
    if !checker.are_few() {
        return Err(No::WrongShape);
    }
    if !checker.is_selected(selection) {
        return Err(No::WrongShape);
    }
    if !has_fitting_lines(checker, certificate) {
        return Err(No::WrongShape);
    }
    Ok(())
}

/// Of the lines of a choice in an initial domain, where the roll has
/// all participants of the decision.
fn lines_fault(
    roll: &Roll<'_>,
    platform: &Platform,
    settings: &Settings,
    certificate: &Certificate,
) -> Result<(), No>
    requires { Meets platform.now (participants (listed roll.now)) settings.now }
    ensures { MatchResult result
        (λ _. RefuseBefore platform.now (listed roll.now) settings.now certificate.now)
        (LinesFaults platform.now None (listed roll.now) settings.now certificate.now) }
{
    offers_before_fault(roll, platform, settings, certificate.offers().as_slice())?;
    places_before_fault(roll, platform, settings, certificate.places().as_slice())
}

/// Of a choice in an initial domain behind its form.
fn initial_choice_fault(
    checker: &Checker<'_>,
    chosen: &Chosen,
    certificate: &Certificate,
) -> Result<(), No>
    requires initial { checker.now.base ≡ None }
    requires selected { IsSelected (forest checker.now) chosen.now.selection }
    ensures { MatchResult result
        (λ _. SelectedPasses checker.now.platform (terms checker.now) (forest checker.now)
        chosen.now.selection chosen.now.settings certificate.now)
        (SelectedFaults checker.now.platform (terms checker.now) (forest checker.now)
        chosen.now.selection chosen.now.settings certificate.now) }
{
    let selection = chosen.selection();
    let settings = chosen.settings();
    let members = checker.members(selection);
    let platform = checker.platform();
    initial_fault(checker.tree(), members.as_slice(), platform, &settings)?;
    earlier_fault(checker, selection, certificate.earlier())?;
    lines_fault(
        &checker.settled(selection),
        platform,
        &settings,
        certificate,
    )
}

/// Of a choice in an attached domain on this base behind its form.
fn attached_choice_fault(
    checker: &Checker<'_>,
    base: &Base,
    chosen: &Chosen,
    certificate: &Certificate,
) -> Result<(), No>
    requires base { checker.now.base ≡ Some base.now }
    requires selected { IsSelected (forest checker.now) chosen.now.selection }
    requires fitting { HasFittingLines (terms checker.now) certificate.now }
    ensures { MatchResult result
        (λ _. SelectedPasses checker.now.platform (terms checker.now) (forest checker.now)
        chosen.now.selection chosen.now.settings certificate.now)
        (SelectedFaults checker.now.platform (terms checker.now) (forest checker.now)
        chosen.now.selection chosen.now.settings certificate.now) }
{
    checker.few_accepted();
    let selection = chosen.selection();
    let members = checker.members(selection);
    attached_fault(
        checker.tree(),
        base.accepted(),
        members.as_slice(),
        checker.platform(),
        &base.settings(),
        &chosen.settings(),
    )?;
    earlier_fault(checker, selection, certificate.earlier())
}

/// Of a choice with its certificate.
pub(crate) fn choice_fault(
    checker: &Checker<'_>,
    chosen: &Chosen,
    certificate: &Certificate,
) -> Result<(), No>
    ensures { MatchResult result
        (λ _. ChoicePasses checker.now.platform (terms checker.now) (forest checker.now)
        chosen.now.selection chosen.now.settings certificate.now)
        (ChoiceFaults checker.now.platform (terms checker.now) (forest checker.now)
        chosen.now.selection chosen.now.settings certificate.now) }
{
    form_fault(checker, chosen.selection(), certificate)?;
    match checker.base() {
        None => initial_choice_fault(checker, chosen, certificate),
        Some(base) => attached_choice_fault(checker, base, chosen, certificate),
    }
}
