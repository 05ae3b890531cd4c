//! Sets of cells, kept as the masks of tables.
use bus_legal::Tables;
use bus_word::{Cell, is_data_place};

/// The set without a cell.
pub fn no_cells() -> Tables {
    Tables {
        own_receive: [0; 30],
        own_transmit: [0; 30],
        broadcast_receive: [0; 30],
        own_mode: 0,
        broadcast_mode: 0,
    }
}

/// Puts a word count of a subaddress into a set, or takes it out where it is there.
fn turn_count(masks: &mut [u32; 30], subaddress: u8, count: u8) {
    if is_data_place(subaddress, count) {
        masks[usize::from(subaddress) - 1] ^= 1 << u32::from(count - 1);
    }
}

/// The bit of a mode code, or none where there is no such code.
fn bit_of(code: u8) -> u32 {
    if code < 32 { 1 << u32::from(code) } else { 0 }
}

/// Puts a cell into a set, or takes it out where it is there.
pub fn turn(cells: &mut Tables, cell: Cell) {
    match cell {
        Cell::OwnReceive(s, n) => turn_count(&mut cells.own_receive, s, n),
        Cell::OwnTransmit(s, n) => turn_count(&mut cells.own_transmit, s, n),
        Cell::BroadReceive(s, n) => turn_count(&mut cells.broadcast_receive, s, n),
        Cell::OwnMode(code) => cells.own_mode ^= bit_of(code),
        Cell::BroadMode(code) => cells.broadcast_mode ^= bit_of(code),
    }
}
