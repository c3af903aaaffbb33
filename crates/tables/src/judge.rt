// Judging a table of either kind: the refusals that both share.
ghost use Rattle.std.specs.Prelude.{ℕ, ◌≡◌, ⊤, List, ◌∷◌, true, Some, None, MatchOption, MatchResult};
ghost use Rattle.laws.specs.Lists.{any, found};
ghost use Rattle.records.specs.Outcome.{number_of};
ghost use Rattle.records.specs.Table.{decode};
ghost use Rattle.tables.specs.Judge.{gives, marks, number_at_fault, loose, fault3, table_number, Sound};

use crate::kind::Kind;
use crate::table::Table;
use records::refusal::Refusal;
use std::alloc::AllocError;

// A table of which none of the shared refusals holds.
pub struct Judged<'a, R: Kind> {
    pub table: Table<'a, R>,
    pub ghost sound: { Sound R.rules (decode R.reading table.bytes.now) },
}

impl<'a, R: Kind> Clone for Judged<'a, R> {
    ghost is_clone = { λ judged copy. copy ≡ judged };

    ghost is_infallible = { λ _. ⊤ };

    fn clone(&self) -> Result<Judged<'a, R>, AllocError> {
        Ok(*self)
    }
}

impl<'a, R: Kind> Copy for Judged<'a, R> {}

// The table gives a number, as the marks say.
fn is_given<R: Kind>(given: &[bool; 256], number: u8) -> bool
    ensures { (table : List R) → given.now ≡ marks R.rules table → result ≡ any (gives R.rules number) table }
{
    given[usize::from(number)]
}

// A number is too large, or given by an earlier record.
fn bad_number<R: Kind>(given: &[bool; 256], number: u8) -> bool
    ensures { (before : List R) → given.now ≡ marks R.rules before → result ≡ number_at_fault R.rules before (Some number) }
{
    R::largest() < number || is_given::<R>(given, number)
}

// Marks a number as given by one record more.
fn give<R: Kind>(given: &mut [bool; 256], number: u8)
    ensures { (r : R) (before : List R) → R.rules.number r ≡ Some number → given.old ≡ marks R.rules before → given.new ≡ marks R.rules (r ∷ before) }
{
    given[usize::from(number)] = true;
}

// Which numbers a table's records give, unless one is too large or given twice.
fn numbers<R: Kind>(table: &Table<R>) -> Option<[bool; 256]>
    ensures { MatchOption result (found (fault3 R.rules (decode R.reading table.now.bytes.now)) ≡ true) (λ given. (fault3 R.rules (decode R.reading table.now.bytes.now) ≡ None) × (given ≡ marks R.rules (decode R.reading table.now.bytes.now))) }
{
    let mut given = [false; 256];
    for place in 0..table.count() {
        if let Some(number) = table.at(place).number() {
            if bad_number::<R>(&given, number) {
                return None;
            }
            give::<R>(&mut given, number);
        }
    }
    Some(given)
}

// The record names itself, or what is not in the table.
fn is_loose<R: Kind>(given: &[bool; 256], r: R) -> bool
    ensures { (table : List R) → given.now ≡ marks R.rules table → result ≡ loose R.rules table r }
{
    let Some((from, to)) = r.ends() else {
        return false;
    };
    from == to || !is_given::<R>(given, from) || !is_given::<R>(given, to)
}

// The judged table of some bytes, or the first of the shared refusals that holds.
pub fn judge<'a, R: Kind>(bytes: &'a [u8]) -> Result<Judged<'a, R>, Refusal>
    ensures { MatchResult result (λ judged. (judged.table.bytes.now ≡ bytes.now) × ((later : ℕ) → table_number R.rules R.reading bytes.now later ≡ later)) (λ refusal. (later : ℕ) → table_number R.rules R.reading bytes.now later ≡ number_of refusal) }
{
    let table: Table<'a, R> = Table::read(bytes)?;
    let Some(given) = numbers(&table) else {
        return Err(Refusal::Number);
    };
    let None = table.first(|r: R| r.bad_value()) else {
        return Err(Refusal::Value);
    };
    let None = table.first(|r: R| is_loose(&given, r)) else {
        return Err(Refusal::Loose);
    };
    Ok(Judged { table })
}
