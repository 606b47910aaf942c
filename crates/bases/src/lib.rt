// A base of records, and what was judged of it, as types: a `Base` has its geometry's length, and the records of a `Formed` base are well formed.
#![tactic(auto)]

ghost use Rattle.std.specs.Prelude.{◌*◌, map, length, ◌≡◌, ◌↔◌, Err, IfErr, IfOk, IsOk, ⊤};
ghost use Rattle.common.specs.Bases.{BaseFormed};
ghost use Rattle.definitions.specs.Raster.{base_count};
ghost use Rattle.definitions.specs.Record.{record_words};
ghost use Rattle.definitions.specs.Refusals.{all_addresses, record_tests, refusal, verdict_of};
ghost use Rattle.definitions.specs.Replies.{Accepted};

use common::refusals;
use common::refusals::unless;
use definitions::Refusal;
use geometry::Geometry;
use scan::check;
use std::alloc::AllocError;
use word::Word;

// The words of a base, and its geometry.
pub struct Base<'a, W> {
    pub geometry: Geometry,
    pub words: &'a [W],
    ghost long: { length words.now ≡ record_words * base_count geometry.axes },
}

// (By hand, since nothing derives over a ghost field of a generic type. Copying allocates nothing; the trait's signature has the error.)
impl<'a, W> Clone for Base<'a, W> {
    ghost is_clone = { λ x y. y ≡ x };

    ghost is_infallible = { λ _. ⊤ };

    fn clone(&self) -> Result<Base<'a, W>, AllocError> {
        Ok(*self)
    }
}

impl<'a, W> Copy for Base<'a, W> {}

// Such words whose records are all well formed.
pub struct Formed<'a, W: Word> {
    pub geometry: Geometry,
    pub words: &'a [W],
    ghost formed: { BaseFormed W.LIMIT geometry.axes (map W.value words.now) },
}

impl<'a, W: Word> Clone for Formed<'a, W> {
    ghost is_clone = { λ x y. y ≡ x };

    ghost is_infallible = { λ _. ⊤ };

    fn clone(&self) -> Result<Formed<'a, W>, AllocError> {
        Ok(*self)
    }
}

impl<'a, W: Word> Copy for Formed<'a, W> {}

impl<'a, W: Word> Base<'a, W> {
    // Refusal 5: the words are as many as the geometry's base has.
    pub fn new(geometry: Geometry, words: &'a [W]) -> Result<Base<'a, W>, Refusal>
        ensures accepted { IfOk result (λ b. (b.words.now ≡ words.now) × (b.geometry.axes ≡ geometry.axes)) }
        ensures right { IsOk result ↔ (length words.now ≡ record_words * base_count geometry.axes) }
        ensures refused { IfErr result (λ r. r ≡ refusal 5) }
    {
        unless(geometry.base_right(words.len()), refusals::BASE_LENGTH)?;
        Ok(Base { geometry, words })
    }

    // Refusal 8: all its records are well formed, or the first that is not, with its first broken rule.
    pub fn judged(self) -> Result<Formed<'a, W>, Refusal>
        ensures accepted { IfOk result (λ f. (verdict_of (record_tests W.LIMIT (map W.value self.entry.words.now) (all_addresses self.entry.geometry.axes)) ≡ Accepted) × (f.words.now ≡ self.entry.words.now) × (f.geometry.axes ≡ self.entry.geometry.axes)) }
        ensures refused { IfErr result (λ r. verdict_of (record_tests W.LIMIT (map W.value self.entry.words.now) (all_addresses self.entry.geometry.axes)) ≡ Err r) }
    {
        check(self.words, 0, self.geometry.base_count())?;
        Ok(Formed {
            geometry: self.geometry,
            words: self.words,
        })
    }
}
