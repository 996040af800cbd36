// A posting's five centavo figures, how they net, and what they come to.
ghost use Rattle.std.specs.Prelude.{◌≡◌, ◌≤◌, pos, refl};
ghost use Rattle.netting.specs.Group.{limit};
ghost use Rattle.postings.specs.Postings.{posted, postings, centavos};
ghost use Rattle.postings.specs.Laws.{PostingLaws};
ghost use Rattle.postings.specs.PostingsLemmas.{postings_lawful};

use netting::figure::Figure;

// What a swap brings its long account in a session, in centavos; its short account gets the opposite.
// A sum of postings is an account's statement.
#[derive(Clone, Copy, Debug, PartialEq, Eq)]
pub struct Posting {
    // the closing NPV less the previous one
    pub variation: i64,
    // the interest on the previous NPV
    pub alignment: i64,
    pub coupons: i64,
    // the additional payment for an early end
    pub payment: i64,
    // the exchange of nominals
    pub exchange: i64,
}

impl Figure for Posting {
    const ZERO: Posting = Posting {
        variation: 0,
        alignment: 0,
        coupons: 0,
        payment: 0,
        exchange: 0,
    };

    ghost ZERO = { posted (pos 0) (pos 0) (pos 0) (pos 0) (pos 0) };

    ghost group = { postings };

    ghost zero_is_nothing = { refl };

    ghost lawful = { postings_lawful };

    fn plus(self, other: Posting) -> Posting {
        Posting {
            variation: self.variation.plus(other.variation),
            alignment: self.alignment.plus(other.alignment),
            coupons: self.coupons.plus(other.coupons),
            payment: self.payment.plus(other.payment),
            exchange: self.exchange.plus(other.exchange),
        }
    }

    fn opposite(self) -> Posting {
        Posting {
            variation: self.variation.opposite(),
            alignment: self.alignment.opposite(),
            coupons: self.coupons.opposite(),
            payment: self.payment.opposite(),
            exchange: self.exchange.opposite(),
        }
    }
}

impl Posting {
    // What the posting comes to: its five figures added up.
    pub fn net(&self) -> i64
        requires { postings.size self.now ≤ limit }
        ensures { result ≡ centavos self.now }
    {
        self.variation
            .plus(self.alignment)
            .plus(self.coupons)
            .plus(self.payment)
            .plus(self.exchange)
    }
}

// What one account or member gains another loses, to the centavo.
pub fn posting_laws()
    ensures { PostingLaws }
{}
