// The counts of a picture: inherited, intra, outside.
ghost use Rattle.std.specs.Prelude.{◌<◌, ◌≡◌};
ghost use Rattle.common.specs.Sorts.{sort_of};
ghost use Rattle.definitions.specs.Calls.{counted, sum_of};
ghost use Rattle.definitions.specs.declared.Answer.{Answer};

use definitions::{Answer, Counts};

pub const NO_COUNTS: Counts = Counts {
    inherited: 0,
    intra: 0,
    outside: 0,
};

// Which answer it is.
#[derive(Clone, Copy)]
pub enum Sort {
    Inherited,
    Intra,
    Outside,
}

impl From<Answer> for Sort {
    ghost from_gives = { λ a s. s ≡ sort_of a };

    fn from(a: Answer) -> Sort {
        match a {
            Answer::Outside => Sort::Outside,
            Answer::Intra(_) => Sort::Intra,
            Answer::Inherited(_, _) => Sort::Inherited,
        }
    }
}

// One more of a sort.
pub fn count_sort(c: Counts, s: Sort) -> Counts
    requires { sum_of c < 65536 }
    ensures { (a : Answer) → s ≡ sort_of a → result ≡ counted a c }
{
    match s {
        Sort::Inherited => Counts {
            inherited: c.inherited + 1,
            ..c
        },
        Sort::Intra => Counts {
            intra: c.intra + 1,
            ..c
        },
        Sort::Outside => Counts {
            outside: c.outside + 1,
            ..c
        },
    }
}

// One more of an answer's sort.
pub fn count(c: Counts, a: Answer) -> Counts
    requires { sum_of c < 65536 }
    ensures { result ≡ counted a c }
{
    count_sort(c, a.into())
}

// The macroblocks counted.
pub fn sum(c: Counts) -> u64
    ensures { result ≡ sum_of c }
{
    c.inherited as u64 + c.intra as u64 + c.outside as u64
}
