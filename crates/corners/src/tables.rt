// The constant tables of the corners of a cell. Two of them give a row of four entries, a word of the unit's core, by a `match`, which the compiler
// keeps in read-only memory; a constant array it writes anew onto the stack at each use.
ghost use Rattle.std.specs.Prelude.{◌≡◌, ◌<◌, ◌≤◌};
ghost use Rattle.semantics.specs.NodeCount.{corner_count};
ghost use Rattle.semantics.specs.Corners.Corner.{corner_at};
ghost use Rattle.table.specs.Fields.{most_timers};
ghost use Rattle.corners.specs.Held.{pack_corner};
ghost use Rattle.corners.specs.Tables.{most_cell_corners, entry_of, IsRow, first_at, corner_byte};

use table::MOST_TIMERS;

// A corner of a cell: the groups of its region, 0 past the last timer, the index of its price, and the number of the highest group.
#[derive(Clone, Copy)]
pub struct CornerAt {
    pub group: [u8; MOST_TIMERS],
    pub index: usize,
    pub top: u8,
}

// How many corners a cell has, by the number of timers.
const CORNERS: [u8; 4] = [1, 3, 13, 75];

// Where the corners begin in their table, by the number of timers.
const FIRST_PLACES: [u8; 4] = [0, 0, 4, 20];

// "The corners of a cell number 3, 13 or 75 for one, two or three timers."
pub fn corner_count(timers: usize) -> u32
    requires { timers ≤ most_timers }
    ensures { (result ≡ corner_count timers 1) × (1 ≤ result) × (result ≤ most_cell_corners) }
{
    u32::from(CORNERS[timers])
}

// The number of a region's first corner, by the place of its groups.
pub fn first_corner(place: usize) -> u8
    requires { place < 96 }
    ensures { result ≡ first_at place }
{
    entry(first_row(place / 4), place % 4)
}

// The corner with a number.
pub fn corner_at(timers: usize, number: usize) -> CornerAt
    requires { (1 ≤ timers) × (timers ≤ most_timers) × (number < corner_count timers 1) }
    ensures { result ≡ pack_corner (corner_at timers number) }
{
    let place = usize::from(FIRST_PLACES[timers]) + number;
    let byte = entry(corner_row(place / 4), place % 4);
    let a = byte / 16 % 4;
    let b = byte / 4 % 4;
    let c = byte % 4;
    CornerAt {
        group: [a, b, c],
        index: usize::from(byte / 64),
        top: a.max(b.max(c)),
    }
}

// An entry of a row; the first one stands in the lowest byte.
fn entry(row: u32, column: usize) -> u8
    requires { column < 4 }
    ensures { result ≡ entry_of row column }
{
    ((row >> (8 * column)) % 256) as u8
}

// The numbers of the regions' first corners.
fn first_row(row: usize) -> u32
    requires { row < 24 }
    ensures { IsRow first_at row result }
{
    match row {
        0 => 0x0000_0000,
        1 => 0x0101_0101,
        2 => 0x0303_0303,
        3 => 0x0303_0303,
        4 => 0x0D0D_0100,
        5 => 0x0D07_0503,
        6 => 0x0D0D_0A0D,
        7 => 0x0D0D_0D0D,
        8 => 0x4B4B_1200,
        9 => 0x4B19_1403,
        10 => 0x4B4B_1C4B,
        11 => 0x4B4B_4B4B,
        12 => 0x4B16_0105,
        13 => 0x4B39_1F07,
        14 => 0x433C_240F,
        15 => 0x4B47_4B4B,
        16 => 0x4B4B_094B,
        17 => 0x3F21_270C,
        18 => 0x4B4B_2A4B,
        19 => 0x4B4B_354B,
        20 => 0x4B4B_4B4B,
        21 => 0x4B2D_4B4B,
        22 => 0x4B4B_314B,
        _ => 0x4B4B_4B4B,
    }
}

// The corners by their numbers.
fn corner_row(row: usize) -> u32
    requires { row < 24 }
    ensures { IsRow corner_byte row result }
{
    match row {
        0 => 0x0050_1000,
        1 => 0x1044_0400,
        2 => 0x1854_1450,
        3 => 0x6424_9858,
        4 => 0x0000_00A4,
        5 => 0x1045_0500,
        6 => 0x1141_0150,
        7 => 0x8646_0651,
        8 => 0x2192_5212,
        9 => 0x4404_A161,
        10 => 0x4909_5414,
        11 => 0x9858_1889,
        12 => 0x15A4_6424,
        13 => 0x9A5A_1A55,
        14 => 0x16A5_6525,
        15 => 0x6626_9656,
        16 => 0x9B5B_1BA6,
        17 => 0xA767_27DB,
        18 => 0xB676_36E7,
        19 => 0x9959_19F6,
        20 => 0x1EA9_6929,
        21 => 0x2DDE_9E5E,
        22 => 0x39ED_AD6D,
        _ => 0x00F9_B979,
    }
}
