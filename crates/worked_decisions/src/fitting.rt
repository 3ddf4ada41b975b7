//! What was frozen of a book, and which books it fits.

use crate::equal::is_equal;
use crate::playing::{frozen_after, played};
use std::alloc::Global;
use std::process::Abort;
use sysmem_alloc::Frozen;

// Of a, whose token c was duplicated, and b, all of whom are set: c is made last here.
const FROZEN: &str =
    "/ duplicate duplicate /0 duplicate bind cpu /1 bind camps_on_2 /0/0 bind cpu / release";

// Books that have what was frozen of that one still: itself, with a token attached since, and with
// c made before b.
const FITTING: &[&str] = &[
    FROZEN,
    "/ duplicate duplicate /0 duplicate bind cpu /1 bind camps_on_2 /0/0 bind cpu / release /1 attach_token",
    "/ duplicate /0 duplicate / duplicate /0 bind cpu /0/0 bind cpu /1 bind camps_on_2 / release",
];

// Books that haven't: decided, not ready, with other constraints, with one more token, with c made
// by b.
const OTHER: &[&str] = &[
    "/ duplicate duplicate /0 duplicate bind cpu /1 bind camps_on_2 /0/0 bind cpu / release decide",
    "/ duplicate duplicate /0 duplicate bind cpu /1 bind camps_on_2 /0/0 bind cpu",
    "/ duplicate duplicate /0 duplicate bind cpu /1 bind camps_on_1 /0/0 bind cpu / release",
    "/ duplicate duplicate duplicate /0 duplicate bind cpu /1 bind camps_on_2 /0/0 bind cpu /2 release / release",
    "/ duplicate duplicate /1 duplicate bind camps_on_2 /0 bind cpu /1/0 bind cpu / release",
];

// Two participants a and b, who need 8 buffers, of which b wants 9; a token x attached to a, who
// takes the ninth; a token attached to b, duplicated for two, of whom one wants another; then a is
// released, and the domain of those two waits.
const RELEASED: &str =
    "/ duplicate duplicate release /0 bind camps_on_2_and_slack /1 bind camps_on_3 decide /0 attach_token /0/0 bind camps_on_1 decide /1 attach_token /1/0 duplicate duplicate release /1/0/1 bind cpu /1/0/0 bind camps_on_1 /0 release";

// As the books of an attached domain, but a participant who was accepted asks less, though all have
// the same settings.
const ACCEPTED_ASKS_LESS: &str =
    "/ duplicate duplicate release /0 bind camps_on_2 /1 bind camps_on_3 decide /0 attach_token /0/0 bind camps_on_1 decide /1 attach_token /1/0 duplicate duplicate release /1/0/1 bind cpu /1/0/0 bind camps_on_1 /0 release";

// Two participants who need 8 buffers, as in the worked row `slack`, before their decision and
// after it.
const SLACK: &str =
    "/ duplicate duplicate release /0 bind camps_on_2_and_slack /1 bind camps_on_3_and_slack";

const SLACK_DECIDED: &str =
    "/ duplicate duplicate release /0 bind camps_on_2_and_slack /1 bind camps_on_3_and_slack decide";

// A script, those of books that have what was frozen of its book still, and those of books that
// haven't.
const CASES: [(&str, &[&str], &[&str]); 3] = [
    (FROZEN, FITTING, OTHER),
    (RELEASED, &[RELEASED], &[ACCEPTED_ASKS_LESS, FROZEN]),
    (SLACK, &[SLACK], &[SLACK_DECIDED]),
];

fn fits_all(rt: &impl Abort, alloc: Global, frozen: &Frozen, scripts: &[&str], wanted: bool) {
    for script in scripts {
        let book = played(rt, alloc, script);
        is_equal(rt, script, &book.fits(frozen), &wanted);
    }
}

#[test]
fn which_books_fit(rt: HostRuntime) {
    for (script, fitting, other) in CASES {
        let frozen = frozen_after(&rt, rt.alloc(), script);
        fits_all(&rt, rt.alloc(), &frozen, fitting, true);
        fits_all(&rt, rt.alloc(), &frozen, other, false);
    }
}
