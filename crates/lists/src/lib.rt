// Lists of numbers under keys: what entries, settings and the index are made of.
#![tactic(auto)]

// A number under a key: an entry of a page (key, word), a setting (valve, word) or a place of the index (valve, address).
#[repr(C)]
#[derive(Clone, Copy)]
pub struct Cell {
    pub key: u16,
    pub val: u64,
}

// A list of at most 192 cells by value: the first `count` places of two arrays, the keys in one and the numbers under them in the other.
// What the places past them hold means nothing.
#[repr(C)]
#[derive(Clone, Copy)]
pub struct Cells {
    pub count: usize,
    pub keys: [u16; 192],
    pub vals: [u64; 192],
}
