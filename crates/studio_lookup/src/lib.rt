// The row of an identifier by one look-up, so that no branch depends on what it is: the slots of specs/Slots, made once for
// a file and lent to whoever looks up. (A constant array in `row` would be written to the stack at each call.)
#![tactic(auto)]

ghost use Rattle.std.specs.Prelude.{◌≡◌, ◌<◌};
ghost use Rattle.studio_rules.specs.Table.{listed};
ghost use Rattle.studio_row.specs.Packed.{row_of};
ghost use Rattle.studio_lookup.specs.Slots.{slots, slot_at, id_in, row_in};

// The row of 4D4D, with which every walk begins.
pub const FIGURE: u64 = 0x00_1_0_5_0004_1;

// The slots: tests/slots prints them from the table, and the proof holds them to it.
pub fn slots() -> [u64; 128]
    ensures { result ≡ slots }
{
    [
        0xFFFFF,
        0x40050000301450,
        0x80000000C0B008,
        0x40050000600031,
        0xFFFFF,
        0xFFFFF,
        0xFFFFF,
        0xFFFFF,
        0xFFFFF,
        0x1010008203D3D,
        0x50000704012,
        0xFFFFF,
        0xFFFFF,
        0xFFFFF,
        0x450000904130,
        0x20050000301420,
        0xFFFFF,
        0x105002040A030,
        0xFFFFF,
        0x141000800A04610,
        0x1052000C0B002,
        0x60500000D0B010,
        0xFFFFF,
        0xFFFFF,
        0xFFFFF,
        0x40050000B04656,
        0xFFFFF,
        0x40050000303D3E,
        0x50000704013,
        0x1000100704100,
        0xFFFFF,
        0xFFFFF,
        0x10000040A000,
        0xFFFFF,
        0xFFFFF,
        0xFFFFF,
        0x40000000200002,
        0xC0050000500010,
        0x40050000301460,
        0xFFFFF,
        0xFFFFF,
        0xFFFFF,
        0xFFFFF,
        0xFFFFF,
        0xFFFFF,
        0xFFFFF,
        0xFFFFF,
        0xFFFFF,
        0xFFFFF,
        0xFFFFF,
        0xFFFFF,
        0xFFFFF,
        0x80220000804140,
        0xFFFFF,
        0xFFFFF,
        0x105004040A040,
        0x30050000500011,
        0x50000A04620,
        0xFFFFF,
        0xFFFFF,
        0xFFFFF,
        0x50000B04651,
        0xFFFFF,
        0xFFFFF,
        0x1150080304000,
        0x50000704015,
        0xC0200000804110,
        0xFFFFF,
        0x40050000301400,
        0x105002040A010,
        0xFFFFF,
        0xFFFFF,
        0xFFFFF,
        0xFFFFF,
        0x30050000500012,
        0x201000000704700,
        0x50000301470,
        0xFFFFF,
        0xFFFFF,
        0xFFFFF,
        0xFFFFF,
        0xFFFFF,
        0xFFFFF,
        0xFFFFF,
        0xFFFFF,
        0xFFFFF,
        0xFFFFF,
        0xFFFFF,
        0xFFFFF,
        0xFFFFF,
        0x40300000904150,
        0x10040000804165,
        0xC0050000500013,
        0x105001030AFFF,
        0xFFFFF,
        0xFFFFF,
        0xFFFFF,
        0xFFFFF,
        0x150000B04653,
        0xFFFFF,
        0xFFFFF,
        0x50000704010,
        0x50000704017,
        0xFFFFF,
        0x81210200804120,
        0xFFFFF,
        0xFFFFF,
        0x105002040A020,
        0xFFFFF,
        0xFFFFF,
        0xC1000420704600,
        0xFFFFF,
        0x102100020B000,
        0x20050000600030,
        0xFFFFF,
        0xFFFFF,
        0xFFFFF,
        0xFFFFF,
        0xFFFFF,
        0xFFFFF,
        0xFFFFF,
        0xFFFFF,
        0xFFFFF,
        0xFFFFF,
        0xFFFFF,
        0x1050020302100,
        0x1050004104D4D,
        0x300030000804160,
    ]
}

// The slot in which an identifier stands if it is listed.
fn slot(table: &[u64; 128], id: usize) -> u64
    requires { table.now ≡ slots }
    ensures { result ≡ slot_at id }
{
    table[id % 65536 * 4701 / 256 % 128]
}

// Whether an identifier is the one that stands in a slot.
fn has(slot: u64, id: usize) -> bool
    ensures { result ≡ id_in slot id }
{
    slot % 1048576 == id as u64
}

// The row in a slot.
fn row_in(slot: u64) -> u64
    ensures { result ≡ row_in slot }
{
    slot / 1048576
}

// The row of an identifier, 0 where it has none.
pub fn row(table: &[u64; 128], id: usize) -> u64
    requires { table.now ≡ slots }
    ensures { result ≡ row_of id }
{
    let s = slot(table, id);
    if has(s, id) {
        return row_in(s);
    }
    0
}

// Whether an identifier is listed. (Where its row is not asked for: one test in place of two, of which one would depend on
// what it is.)
pub fn is_listed(table: &[u64; 128], id: usize) -> bool
    requires { (id < 65536) × (table.now ≡ slots) }
    ensures { result ≡ listed id }
{
    has(slot(table, id), id)
}
