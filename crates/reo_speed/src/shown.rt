//! Rows that are shown.
use std::io;

/// Shows a row, and how many times it stands there in a row.
fn show_run(rt: &HostRuntime, row: u32, times: usize) -> io::Result<()> {
    if times == 1 {
        print!(rt; " {row}")
    } else {
        print!(rt; " {row}x{times}")
    }
}

/// Shows rows, where 0x3 are three rows 0.
pub fn show_rows(rt: &HostRuntime, rows: &[u32]) -> io::Result<()> {
    let mut run: usize = 0;
    for index in 0..rows.len() {
        run = run.wrapping_add(1);
        if index + 1 == rows.len() || rows[index] != rows[index + 1] {
            show_run(rt, rows[index], run)?;
            run = 0;
        }
    }
    println!(rt; "")
}
