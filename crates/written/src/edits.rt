// One edit of a table, made alike to its rows and to its names.
ghost use Rattle.std.specs.Prelude.{◌≡◌, ◌%◌, ◌≤◌, length, take};
ghost use Rattle.written.specs.Edits.{edited, place_in};

use image::{Row, place};

#[derive(Clone, Copy, Debug, PartialEq, Eq)]
pub enum Edit {
    Same,
    Add,
    Put(usize),
    Cut(usize),
}

// The place of the first row of a number among the first n, or n.
pub fn place_of<R: Row>(rows: &[R], n: usize, id: u32) -> usize
    requires { n ≤ length rows.now }
    ensures { result ≡ place_in (λ row. R.number row % 4294967296) id (take n rows.now) }
{
    place(rows, n, id).unwrap_or(n)
}

// Of a list whose first n are in use. A removal moves the later ones up, and the last place is blank.
pub fn make_edit<T: Copy>(list: &mut [T], n: usize, edit: Edit, item: T, blank: T)
    requires { n ≤ length list.old }
    ensures { list.new ≡ edited blank edit n item list.old }
{
    match edit {
        Edit::Add if n < list.len() => list[n] = item,
        Edit::Put(p) if p < n => list[p] = item,
        Edit::Cut(p) if p < n => {
            list.copy_within(p + 1..n, p);
            list[n - 1] = blank;
        }
        _ => {}
    }
}
