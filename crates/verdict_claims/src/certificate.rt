//! What proves that a verdict is optimal.

ghost use Rattle.std.specs.Prelude.{◌≡◌};

use crate::line::Lines;
use crate::refutation::Refutation;
use crate::verdict::Verdict;
use std::marker::Model;

/// Refutations of the choices before the chosen one of a group, that of choice 0 first.
#[derive(Debug, Drop)]
pub struct EarlierChoices {
    refutations: Vec<Refutation>,
}

impl Model for EarlierChoices {
    ghost use Rattle.std.specs.Prelude.{List};
    ghost use Rattle.verdict_claims.specs.declared.refutation.Item.{Item};

    ghost Value = { List (List Item) };

    ghost view = { λ e. e.refutations.items };
}

impl EarlierChoices {
    /// These refutations.
    pub fn new(refutations: Vec<Refutation>) -> EarlierChoices
        ensures { result ≡ refutations.items }
    {
        EarlierChoices { refutations }
    }

    /// The refutations, that of choice 0 first.
    pub fn refutations(&self) -> &[Refutation]
        ensures { result.now ≡ self.now }
    {
        &self.refutations
    }
}

/// What shows that a selection is the first that can be met, and its settings the best.
#[derive(Debug)]
pub struct Certificate {
    earlier: Vec<EarlierChoices>,
    offers: Lines,
    places: Lines,
}

impl Drop for Certificate {
    fn drop(self) {
        let Certificate {
            earlier: _,
            offers: _,
            places: _,
        } = self;
    }
}

impl Model for Certificate {
    ghost use Rattle.verdict_claims.specs.CertificateFacts.{CertificateFacts};

    ghost Value = { CertificateFacts };

    ghost view = { λ c. record {
      earlier = c.earlier.items;
      offers = c.offers;
      places = c.places;
    } };
}

impl Certificate {
    /// For each group refutations of the choices before the chosen one, and for each offer and each
    /// place before those of the settings a line. Any are a certificate; whether they prove
    /// something is a checker's matter.
    pub fn new(earlier: Vec<EarlierChoices>, offers: Lines, places: Lines) -> Certificate
        ensures { result ≡ record { earlier = earlier.items; offers = offers; places = places } }
    {
        Certificate {
            earlier,
            offers,
            places,
        }
    }

    /// For each group in effect, in pre-order, what refutes the choices before the chosen one.
    pub fn earlier(&self) -> &[EarlierChoices]
        ensures { result.now ≡ self.now.earlier }
    {
        &self.earlier
    }

    /// A line for each offer of the platform before that of the settings.
    pub fn offers(&self) -> &Lines
        ensures { result.now ≡ self.now.offers }
    {
        &self.offers
    }

    /// A line for each place of the platform before that of the settings.
    pub fn places(&self) -> &Lines
        ensures { result.now ≡ self.now.places }
    {
        &self.places
    }
}

/// What proves a verdict.
#[derive(Debug, Drop)]
pub enum Proof {
    /// That a choice is the first and the best.
    Choice(Certificate),
    /// That no settings meet any selection.
    Empty(Refutation),
    /// Of more selections than a decision goes through, which need no proof, of what isn't a
    /// decision, and where no proof was asked for.
    Nothing,
}

/// A verdict with what is to prove it. Any are a claim; whether it is true is a checker's matter.
#[derive(Debug)]
pub struct Claim {
    /// What is claimed to be optimal.
    pub verdict: Verdict,
    /// What is to prove it.
    pub proof: Proof,
}

impl Drop for Claim {
    fn drop(self) {
        let Claim {
            verdict: _,
            proof: _,
        } = self;
    }
}
