// The bytes of a table as its records: whole ones, each of which can be read.
ghost use Rattle.std.specs.Prelude.{ℕ, ◌≡◌, ◌<◌, ⊤, [], length, Bool, false, Some, slice_get, MatchResult};
ghost use Rattle.laws.specs.Lists.{first_fault};
ghost use Rattle.records.specs.Outcome.{number_of};
ghost use Rattle.records.specs.Table.{bad_length, decode};
ghost use Rattle.tables.specs.Table.{Whole, read_number};

use records::plain::Readable;
use records::read::read;
use records::refusal::Refusal;
use records::table::bad_length;
use std::alloc::AllocError;
use std::marker::PhantomData;

// A table of whole records that can all be read.
pub struct Table<'a, R: Readable> {
    pub bytes: &'a [u8],
    pub count: usize,
    pub kind: PhantomData<R>,
    pub ghost whole: { Whole R.reading bytes.now count },
}

impl<'a, R: Readable> Clone for Table<'a, R> {
    ghost is_clone = { λ table copy. copy ≡ table };

    ghost is_infallible = { λ _. ⊤ };

    fn clone(&self) -> Result<Table<'a, R>, AllocError> {
        Ok(*self)
    }
}

impl<'a, R: Readable> Copy for Table<'a, R> {}

impl<'a, R: Readable> Table<'a, R> {
    // The table of some bytes, or why its records cannot be read.
    pub fn read(bytes: &'a [u8]) -> Result<Table<'a, R>, Refusal>
        ensures { MatchResult result (λ table. (table.bytes.now ≡ bytes.now) × (bad_length bytes.now ≡ false)) (λ refusal. (later : ℕ) → read_number R.reading bytes.now later ≡ number_of refusal) }
    {
        if bad_length(bytes) {
            return Err(Refusal::Length);
        }
        let count = bytes.len() / 12;
        for place in 0..count {
            let Some(_) = read::<R>(bytes, place) else {
                return Err(Refusal::Unreadable);
            };
        }
        Ok(Table {
            bytes,
            count,
            kind: PhantomData,
        })
    }

    // How many records there are.
    pub fn count(&self) -> usize
        ensures { result ≡ length (decode R.reading self.now.bytes.now) }
    {
        self.count
    }

    // The record at a place.
    pub fn at(&self, place: usize) -> R
        requires { place < length (decode R.reading self.now.bytes.now) }
        ensures { slice_get (decode R.reading self.now.bytes.now) place ≡ Some result }
    {
        let Some(found) = read::<R>(self.bytes, place) else {
            unreachable!()
        };
        found
    }

    // The place of the first record that a test finds.
    pub fn first<F: Fn(R) -> bool>(&self, test: F) -> Option<usize>
        requires { F.IsAlwaysCallable test }
        ensures { (bad : R → Bool) → ((r : R) (t : Bool) → F.post test r t → t ≡ bad r) → result ≡ first_fault (λ before r. bad r) [] 0 (decode R.reading self.now.bytes.now) }
    {
        for place in 0..self.count {
            if test(self.at(place)) {
                return Some(place);
            }
        }
        None
    }
}
