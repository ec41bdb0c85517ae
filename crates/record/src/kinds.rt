// The table of kinds, which the reader and the writer both use.
ghost use Rattle.std.specs.Prelude.{◌≡◌};
ghost use Rattle.record.specs.Table.{row_of};

// The columns of the table.
pub(crate) const LENGTH: usize = 1;

pub(crate) const THREAD: usize = 2;

pub(crate) const LOCATION: usize = 3;

pub(crate) const SOURCE: usize = 4;

pub(crate) const VERSION: usize = 5;

pub(crate) const THREADS: usize = 6;

pub(crate) const LOCATIONS: usize = 7;

pub(crate) const OUTCOME: usize = 8;

pub(crate) const SINCE: usize = 9;

// Document 01 asks for a constant table of tables. A row for each kind, at its number: kind, length, and the offsets in
// the record of its thread, location and source, then of a begin's version, threads and locations, then of a close's
// outcome; last the first version of the format that knows the kind. Offset 0: the kind has no such field. Length 0: no
// such kind.
pub(crate) const KINDS: [[u16; 10]; 17] = [
    [0, 0, 0, 0, 0, 0, 0, 0, 0, 0],
    [1, 8, 0, 0, 0, 4, 6, 8, 0, 1],
    [2, 6, 4, 6, 0, 0, 0, 0, 0, 1],
    [3, 4, 4, 0, 0, 0, 0, 0, 0, 1],
    [4, 8, 4, 6, 8, 0, 0, 0, 0, 1],
    [5, 6, 4, 6, 0, 0, 0, 0, 0, 1],
    [6, 6, 4, 6, 0, 0, 0, 0, 0, 1],
    [7, 4, 4, 0, 0, 0, 0, 0, 0, 1],
    [8, 4, 4, 0, 0, 0, 0, 0, 0, 1],
    [9, 2, 0, 0, 0, 0, 0, 0, 0, 1],
    [10, 4, 4, 0, 0, 0, 0, 0, 0, 1],
    [11, 4, 4, 0, 0, 0, 0, 0, 0, 1],
    [12, 8, 4, 6, 8, 0, 0, 0, 0, 1],
    [13, 4, 4, 0, 0, 0, 0, 0, 0, 1],
    [14, 6, 4, 0, 6, 0, 0, 0, 0, 1],
    [15, 4, 4, 0, 0, 0, 0, 0, 0, 2],
    [16, 6, 4, 0, 0, 0, 0, 0, 6, 2],
];

// The row of a kind; zeros where there is no such kind. Each arm indexes the table by a constant: an index that is
// known only at run time would have the whole table copied at each call. The table is named once, for the check of a
// function takes longer the oftener the table stands in it.
#[tactic(auto, using(crate::proofs::Rows::zeros_else), unfolding(crate::specs::Table::row_of))]
pub(crate) fn row_of(kind: u16) -> [u16; 10]
    ensures { result ≡ row_of kind }
{
    let kinds = KINDS;
    if kind < 6 {
        return match kind {
            1 => kinds[1],
            2 => kinds[2],
            3 => kinds[3],
            4 => kinds[4],
            5 => kinds[5],
            _ => kinds[0],
        };
    }
    match kind {
        6 => kinds[6],
        7 => kinds[7],
        8 => kinds[8],
        9 => kinds[9],
        10 => kinds[10],
        11 => kinds[11],
        12 => kinds[12],
        13 => kinds[13],
        14 => kinds[14],
        15 => kinds[15],
        16 => kinds[16],
        _ => kinds[0],
    }
}
