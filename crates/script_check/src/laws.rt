//! What is true of reports, whoever writes them.

ghost use Rattle.script_check.specs.Headline.{HeadlineOfBytes, ReportsAreLegal, YesIsNegotiated};
ghost use Rattle.script_check.specs.Laws.{CertificatesAreAccepted, CertificatesReadBack, CertifiedIsReport, FaultIsAlone, OneAnswer, OneCheck, OneReport};

use certificate_text::laws::{
    claims_read_back, node_paths_can_be_read, texts_read_back, true_claims_can_be_read,
};
use sysmem_alloc::laws::{headline, legal_is_sound};
use sysmem_image::laws::corner_is_least;
use verdict_claims::laws::{self, faults_are_first, tests_are_exact};

/// The calls of a script have one report on a platform, where memory is not refused.
pub fn one_report()
    ensures { OneReport }
{
    laws::one_answer();
    corner_is_least();
}

/// The bytes of a script give one answer, where memory is not refused: a fault, or a report.
pub fn one_answer()
    ensures { OneAnswer }
{
    one_report();
}

/// Bytes with a fault give that fault and nothing else, whether or not memory is refused: no
/// report, and no other fault.
pub fn fault_is_alone()
    ensures { FaultIsAlone }
{}

/// What the bytes of a script give with a certificate they give without it, so that what holds of
/// reports holds of those that have a certificate too: there is one, where memory is not refused,
/// and a fault is alone.
pub fn certified_is_report()
    ensures { CertifiedIsReport }
{}

/// The certificate of a report's decisions, on a platform of the profile, is JSON: the list of
/// their objects, each of which is read as the decision's path and claim.
pub fn certificates_read_back()
    ensures { CertificatesReadBack }
{
    claims_read_back();
    node_paths_can_be_read();
    true_claims_can_be_read();
    texts_read_back();
    legal_is_sound();
}

/// The bytes of a script and of a certificate give one answer: yes, or one number at one path.
pub fn one_check()
    ensures { OneCheck }
{
    tests_are_exact();
    faults_are_first();
}

/// The certificate that a run makes is accepted, where memory was not refused and it has at most
/// 4,194,304 bytes: the bytes of the script and of the certificate answer yes, with the number of
/// the report's decisions. Each check of them writes that, unless a reader, the writer or memory
/// fails.
pub fn certificates_are_accepted()
    ensures { CertificatesAreAccepted }
{
    certificates_read_back();
    one_check();
    certified_is_report();
    fault_is_alone();
}

/// The collection of a report has a legal history for the report's platform, whose decisions are
/// those of the report, in their order.
pub fn reports_are_legal()
    ensures { ReportsAreLegal }
{}

/// What a run with a certificate writes of a script's bytes is the report, and the certificate, of
/// the decisions of a legal history, and each of these is as `headline` of `sysmem_alloc` says.
pub fn headline_of_bytes()
    ensures { HeadlineOfBytes }
{
    reports_are_legal();
    headline();
}

/// What a check of a file says yes to, whoever wrote it, are the claims of the decisions of a legal
/// history of the script's calls, and each of these is as `headline` of `sysmem_alloc` says.
pub fn yes_is_negotiated()
    ensures { YesIsNegotiated }
{
    reports_are_legal();
    headline();
}
