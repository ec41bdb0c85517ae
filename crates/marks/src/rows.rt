// The rows of the lent work area, which marking reads: a view of a slice that is known to hold all of them, so that no
// function in between asks for that.
ghost use Rattle.std.specs.Prelude.{◌≡◌, ◌≤◌, length, List, ℕ};
ghost use Rattle.area.specs.Cells.{get_row, committed_at, joined};

use std::marker::Model;

#[derive(Drop)]
pub(crate) struct Rows<'a> {
    work: &'a [u16],
}

impl<'a> Model for Rows<'a> {
    ghost Value = { List ℕ };

    ghost view = { λ rows. rows.work.now };

    ghost invariant = { λ rows. 32768 ≤ length rows.work.now };
}

impl<'a> Rows<'a> {
    pub(crate) fn of(work: &'a [u16]) -> Rows<'a>
        requires { 32768 ≤ length work.now }
        ensures { result ≡ work.now }
    {
        Rows { work }
    }

    // Column k of event e's row.
    pub(crate) fn get(&self, e: u16, k: u16) -> u16
        ensures { result ≡ get_row self.now e k }
    {
        area::row_get(self.work, e, k)
    }

    // Where the row of the event that committed store p begins.
    pub(crate) fn committed_at(&self, p: u16) -> u16
        ensures { result ≡ committed_at self.now p }
    {
        area::committed_at(self.work, p)
    }

    // The eight numbers of the cut from `to` on become the larger of them and of event s's clock.
    pub(crate) fn join(&self, cut: &mut [u16; 64], to: usize, s: u16)
        requires { to ≤ 56 }
        ensures { cut.new ≡ joined 8 self.now s to cut.old }
    {
        area::join(cut, to, self.work, s);
    }
}
