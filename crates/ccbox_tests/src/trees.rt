// Small sources, with the place of their refusal.

use crate::questions::Question;
use crate::rows::{Table, expect_tables};
use std::alloc::Global;
use std::test::Fail;

// Whether they have a tree; the last ones have up to 200 levels, or too many.
const TREES: &str = "ok@
E06 0@; int x;
E06 0@return
E06 4@int int x;
ok@int main(void) { return 0; }
E06 26@int main(void) { return 0;
E06 27@int main(void) { return 0; 
E06 11@struct s { };
ok@_Tainted int f(int x); _Callback _Checked void *g() : count(1) _Unchecked { }
E06 23@_Tainted _Checked int x;
E06 6@void x;
E06 10@int f(void, int x);
ok@ptr<ptr<int>> p;
ok@ptr<ptr<int> > p;
E06 12@int x = a > > b;
ok@int x = a >> b;
E06 11@int x = a >>= b;
E06 11@int f() { x; }
E06 29@int f() { g(x); g(x) = 3; (g)(x); }
E06 16@int f() { (g(x)); }
E06 35@int f() { x++; --*p; (*p) += 1; ++ ++ x; }
ok@int f() { for (int i = 0; i < 3; i++) ; for (;;) break; for (x = 1; ; ) { } }
E06 28@int f() { for (int i = 0, i < 3;;) ; }
ok@int f() { _Bundled { x = 1; p->q = y; } _Checked { } if (a) if (b) ; else ; else ; }
E06 40@int f() { if (a) if (b) ; else ; else ; else ; }
ok@int f() { p = _Dynamic_bounds_cast<array_ptr<int>>(q, bounds(unknown)); }
ok@int f() { p = _Dynamic_bounds_cast<array_ptr<int>>(q, bounds(unknown, x)); }
E06 62@int f() { p = _Dynamic_bounds_cast<array_ptr<int>>(q, bounds(a)); }
E06 61@int f() { p = malloc<int>(3 * sizeof(int)); p = calloc<int>(3); }
E06 8@int x : number(3);
E06 8@int x = --y;
E06 16@int f() { return
ok@#pragma CHECKED_SCOPE on¶int x, *y = 0, z _Checked[3] = {1, -2}; struct s { int n; array_ptr<int> p : count(n); }; struct s v;
ok@int x = `199×- `y;
E07 408@int x = `200×- `y;
E07 408@int x = `201×- `y;
E06 408@int x = `200×- `;
E06 409@int x = `200×- `(;
ok@int x = `90000×(`7`90000×)`;
E06 180009@int x = `90000×(`7`90000×)`
ok@int x = `3×(`y + 7`3×) + 7`;
ok@int x = `199×a + `b;
E07 8@int x = `200×a + `b;
E07 8@int x = `200×a + `;
E07 8@int x = `94998×a + `a;
ok@int f() `200×{``200×}`
E07 208@int f() `201×{``201×}`
E07 207@int f() `199×{`x = 7;`199×}`
ok@int f() `198×{`x = 7;`198×}`
E07 208@int f() `200×{`x = 7;`200×}`
E07 212@int f() `198×{`(x) = y + 7;`198×}`
ok@int f() `199×{`;`199×}`
E07 208@int f() `199×{`(x) = 7;`199×}`
ok@`199×ptr<`int`199×>` x;
E07 800@`200×ptr<`int`200×>` x;
ok@int x = `199×y[`7`199×]`;
E07 406@int x = `200×y[`7`200×]`;";

static TABLES: [Table; 1] = [Table(Question::Tree, TREES)];

/// Fails unless each form is read as its tree.
pub fn parsing(alloc: Global) -> Result<(), Fail> {
    expect_tables(alloc, &TABLES)
}
