// Words that are longer than a system may pass.

use crate::questions::Question;
use crate::rows::{Table, expect_tables};
use std::alloc::Global;
use std::test::Fail;

// As many input numbers as may be given, and one more.
const MANY: &str =
    "[exit 65536]@run a.c --input=`65535×1,`1@@int main(void) { int n = 0; for (int i = 0; i < 70000; i++) n += next_input(); return n; }
[usage] ccbox check|split|run|record|big|exec@run a.c --input=`65536×1,`1@@";

static TABLES: [Table; 1] = [Table(Question::Call, MANY)];

/// Fails unless as many input numbers are taken as may be given.
pub fn many_inputs(alloc: Global) -> Result<(), Fail> {
    expect_tables(alloc, &TABLES)
}
