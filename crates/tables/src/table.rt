// A table: places of which the first ones are in use, as many as its count says. Over any type of entry.
ghost use Rattle.std.specs.Prelude.{◌≡◌, ℕ, eqb, position, set, take};
ghost use Rattle.std.specs.List.{list_any};
ghost use Rattle.text.specs.declared.names.Name.{Name};
ghost use Rattle.tables.specs.Tables.{changed, look, removed, rises_from, sound, table_sound};

use text::Name;

// What a table asks of its entries: a number under which each is found, a name, and what stands in a place not in use.
pub trait Entry: Copy {
    // Each table has ids of its own, so that none is searched with the other's.
    type Id: Copy;

    ghost number: { Self → ℕ };

    ghost number_of: { Self.Id → ℕ };

    ghost name: { Self → Name };

    ghost blank: { Self };

    fn number(&self) -> u32
        ensures { result ≡ number self.now };

    fn number_of(id: Self::Id) -> u32
        ensures { result ≡ number_of id };

    fn name(&self) -> &Name
        ensures { result.now ≡ name self.now };

    fn blank() -> Self
        ensures { result ≡ blank };
}

// The first entry of a number.
pub fn find<E: Entry>(table: &[E], count: usize, id: E::Id) -> Option<E>
    ensures { result ≡ look E.number (E.number_of id) (take count table.now) }
{
    let p = place(table, count, E::number_of(id))?;
    Some(table[p])
}

// Its place.
fn place<E: Entry>(table: &[E], count: usize, number: u32) -> Option<usize>
    ensures { result ≡ position (λ e. eqb (E.number e) number) (take count table.now) }
{
    table.iter().take(count).position(|e| e.number() == number)
}

// The entry with this one's number becomes this one; where there is none, nothing changes.
pub fn change<E: Entry>(table: &mut [E], count: usize, entry: E)
    ensures { table.new ≡ changed E.number entry count table.old }
{
    if let Some(p) = place(table, count, entry.number()) {
        table[p] = entry;
    }
}

// The place behind the last entry in use; a full table stays as it is.
pub fn append<E: Entry>(table: &mut [E], count: usize, entry: E)
    ensures { table.new ≡ set table.old count entry }
{
    if count < table.len() {
        table[count] = entry;
    }
}

// Without the first entry of this number: the later ones move up, and the last of the places in use becomes blank.
pub fn remove<E: Entry>(table: &mut [E], count: usize, id: E::Id)
    ensures { table.new ≡ removed E.number E.blank (E.number_of id) count table.old }
{
    if let Some(p) = place(table, count, E::number_of(id)) {
        let n = count.min(table.len());
        table.copy_within(p + 1..n, p);
        table[n - 1] = E::blank();
    }
}

// Whether the numbers rise, all below the next one, and no name is too long: then nothing is twice.
#[tactic(auto, unfolding(crate::specs::Tables::rises_from))]
fn rises<E: Entry>(entries: &[E], next: u32) -> bool
    ensures { result ≡ rises_from E.number E.name next 0 entries.now }
{
    let mut low: u64 = 0;
    for e in entries {
        let number = e.number();
        if (number as u64) < low || next <= number || 128 < e.name().len {
            return false;
        }
        low = number as u64 + 1;
    }
    true
}

// Whether an entry has the number.
fn has<E: Entry>(entries: &[E], number: u32) -> bool
    ensures { result ≡ list_any (λ e. eqb (E.number e) number) entries.now }
{
    entries.iter().any(|e| e.number() == number)
}

// The same in any order, each number compared with the later ones. A `for` with places was tried, and its proof did not close.
#[tactic(auto, unfolding(crate::specs::Tables::sound))]
fn apart<E: Entry>(entries: &[E], next: u32) -> bool
    ensures { result ≡ sound E.number E.name next entries.now }
{
    let mut rest = entries;
    while let Some((e, later)) = rest.split_first() {
        let number = e.number();
        if 128 < e.name().len || next <= number || has(later, number) {
            return false;
        }
        rest = later;
    }
    true
}

// Whether the table passes the tests of refusal 15.
#[tactic(auto, using(crate::proofs::SoundLaws::rises_sound), unfolding(crate::specs::Tables::table_sound))]
pub fn is_sound<E: Entry>(table: &[E], count: usize, next: u32) -> bool
    ensures { result ≡ table_sound E.number E.name next count table.now }
{
    if table.len() < count {
        return false;
    }
    let entries = &table[..count];
    rises(entries, next) || apart(entries, next)
}
