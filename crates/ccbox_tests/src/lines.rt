// Lines that are put together, and numbers that are read. Where memory runs out a line is left short, so that the test
// that compares it fails.

use std::fmt::Write;

/// Puts a text at the end of a line.
pub fn add(line: &mut String, text: &str) {
    let _ = line.push_str(text);
}

/// Puts a number behind a text at the end of a line.
pub fn add_number(line: &mut String, before: &str, number: u32) {
    let _ = write!(line, "{before}{number}");
}

/// Whether a text spells a number.
pub fn is_number(text: &str, number: u64) -> bool {
    match text.parse::<u64>() {
        Ok(spelled) => spelled == number,
        Err(_) => false,
    }
}
