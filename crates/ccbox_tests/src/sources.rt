// Whole programs, printed and read back, and each text that one of them begins with.

use ckc_lexer::lexer::lex;
use ckc_parser::parser::parse;
use ckc_printer::program::print;
use ckc_text::fault::Refused;
use ckc_tree::item::Program;
use std::alloc::Global;
use std::test::Fail;

static SOURCES: [&str; 41] = [
    "int g = 1; int main(void) { ptr<int> p = &g; *p = 41; return g + 1; }\n",
    "int main(void) {\n  array_ptr<int> a : count(10) = malloc<int>(10 * sizeof(int));\n  int i = 0;\n  int s = 0;\n  while (i < 10) {\n    a[i] = i * i;\n    i = i + 1;\n  }\n  for (int j = 0; j < 10; j++) {\n    s = s + a[j];\n  }\n  print_int(s);\n  return 0;\n}\n",
    "int main(void) { ptr<int> p = 0; return *p; }\n",
    "int f(array_ptr<int> q : count(m), int m, int n) {\n  array_ptr<int> p : count(n) = q;\n  return 0;\n}\nint main(void) { return 0; }\n",
    "int f(array_ptr<int> p : count(n), int n) {\n  n = n - 1;\n  return 0;\n}\nint main(void) { return 0; }\n",
    "int main(void) {\n  nt_array_ptr<char> p = \"abc\";\n  int n = 0;\n  while (*p) {\n    n = n + 1;\n    p = p + 1;\n  }\n  *p = 0;\n  print_int(n);\n  *p = 7;\n  return 0;\n}\n",
    "int main(void) { int x = 2147483647; x = x + 1; return 0; }\n",
    "_Tainted int t(int x) { return x + 1; } int main(void) { return t(2147483647) == -2147483647 - 1; }\n",
    "#include <stdchecked.h>\n#define SIZE 8\n_Tainted int total;\n_Tainted _TArray_ptr<char> find(_TArray_ptr<char> s : count(n), int n) {\n  int i = 0;\n  total = 0;\n  while (i < n) {\n    if (s[i] == ':') { total = n - i - 1; return s + i + 1; }\n    i = i + 1;\n  }\n  return NULL;\n}\nint main(void) {\n  _TArray_ptr<char> t : count(SIZE) = t_malloc<char>(SIZE);\n  nt_array_ptr<char> src : count(8) = \"key:wxyz\";\n  int i = 0;\n  while (i < SIZE) { t[i] = src[i]; i = i + 1; }\n  _TArray_ptr<char> r : bounds(unknown) = find(t, SIZE);\n  int len = total;\n  _TArray_ptr<char> v : count(len) =\n    _Dynamic_bounds_cast<_TArray_ptr<char>>(r, count(len));\n  i = 0;\n  while (i < len) { putchar(v[i]); i = i + 1; }\n  return 0;\n}\n",
    "_Tainted struct box { _TPtr<int> p; };\n_Tainted struct box b;\nint main(void) {\n  return *b.p + *b.p;\n}\n",
    "_Tainted _TPtr<int> w(void);\nint main(void) { return *w(); }\n",
    "_Callback int sum(_TArray_ptr<char> b : count(n), int n) {\n  int i = 0;\n  int s = 0;\n  while (i < n) { s = s + b[i]; i = i + 1; }\n  return s;\n}\n_Tainted int work(void);\nint main(void) { return work(); }\n",
    "_Tainted int t(_TPtr<int> p);\nint g;\nint main(void) { return t(&g); }\n",
    "_Tainted struct s { ptr<int> p; };\nint main(void) { return 0; }\n",
    "_Tainted int t(void);\nint main(void) { return t(); }\n",
    "ptr<int> keep;\nint g = 5;\n_Tainted int t(int x);\nint main(void) { keep = &g; return t(*keep); }\n",
    "int main(void) { int n = next_input(); array_ptr<char> p : count(n) = malloc<char>(n); return p != NULL; }\n",
    "int main(void) { int i = 0; while (i < 3) { i = i + 1; } return i; }\n",
    "struct v { int len; array_ptr<int> data : count(len); };\nstruct v s;\nint main(void) {\n  array_ptr<int> q : count(4) = calloc<int>(4, sizeof(int));\n  ptr<struct v> p = &s;\n  _Bundled { p->data = q; p->len = 4; }\n  p->data[3] = 6;\n  return s.data[3] + s.len;\n}\n",
    "int g = 2147483647; int main(void) { return g + 1; }\n",
    "int main(void) { while (1) { } }\n",
    "int f(int n) { return f(n); } int main(void) { return f(0); }\n",
    "struct s { char c; int v; };\nstruct s a;\nint main(void) { ptr<struct s> p = &a; p->v = 7; a.c = 300; return p->v + a.c; }\n",
    "int main(void) { int *p = 0; return 0; }\n",
    "int main(void) { break; return 0; }\n",
    "int main(void) {\n  array_ptr<int> a : count(4) = calloc<int>(4, sizeof(int));\n  int n = next_input();\n  array_ptr<int> b : count(n) = _Dynamic_bounds_cast<array_ptr<int>>(a, count(n));\n  return b != NULL;\n}\n",
    "int main(void) {\n  array_ptr<int> b : count(1) = calloc<int>(1, sizeof(int));\n  array_ptr<int> c : count(1) = calloc<int>(1, sizeof(int));\n  array_ptr<int> p : bounds(b, b - 1) = _Dynamic_bounds_cast<array_ptr<int>>(c, bounds(b, b - 1));\n  return p < b;\n}\n",
    "struct s { int v; };\nint main(void) {\n  array_ptr<struct s> p : count(0) = calloc<struct s>(1, sizeof(struct s));\n  ptr<int> q = &p->v;\n  return *q;\n}\n",
    "int main(void) {\n  nt_array_ptr<char> s = \"hello\";\n  int n = strlen(s);\n  nt_array_ptr<char> t : count(n) = s;\n  print_int(n);\n  return 0;\n}\n",
    "int main(void) {\n  int n = 0;\n  array_ptr<int> p : count(n) = 0;\n  array_ptr<int> q : count(3) = calloc<int>(3, sizeof(int));\n  _Bundled { n = 3; p = q; }\n  p[2] = 8;\n  return p[2];\n}\n",
    "int f(array_ptr<int> p : count(n), int n, int i) {\n  if (p && 0 <= i && i < n) {\n    return p[i];\n  }\n  return p[i];\n}\nint main(void) { return 0; }\n",
    "int g = 5;\n_Unchecked int f(void) {\n  int *q = &g;\n  return *q;\n}\nint main(void) { return f(); }\n",
    "int main(void) {\n  array_ptr<int> a : count(2) = calloc<int>(2, sizeof(int));\n  print_int(1);\n  _Unchecked {\n    int *q = a;\n    q[2] = 7;\n  }\n  return 0;\n}\n",
    "int main(void) { nt_array_ptr<char> s = \"ab\"; int n = strlen(s); n = 9; return n; }\n",
    "int main(void) { int n = next_input(); _TArray_ptr<char> t : count(n) = t_malloc<char>(n); return t != NULL; }\n",
    "_Tainted int t(void);\n_Callback int f(char c) { return c; }\nint main(void) { return t(); }\n",
    "_Tainted _TPtr<int> w(void);\nint main(void) { _TArray_ptr<int> a : count(1) = w(); return a[0]; }\n",
    "_Tainted int t(int x) { return 1 / x; }\nint main(void) { return t(0); }\n",
    "_Tainted struct s { int a; int b; };\n_Tainted _TPtr<struct s> w(void);\nint main(void) { return *&w()->b; }\n",
    "_Tainted int t(void);\n_Callback int f(void) { return t(); }\nint main(void) { return t(); }\n",
    "int main(void) {\n  array_ptr<int> a : count(2) = calloc<int>(2, sizeof(int));\n  print_int(1);\n  _Unchecked {\n    int *q = a;\n    array_ptr<int> b : count(3) = _Assume_bounds_cast<array_ptr<int>>(q, count(3));\n  }\n  return 0;\n}\n",
];

/// The tree of a source.
pub fn tree_of(alloc: Global, src: &[u8]) -> Result<Program, Refused> {
    let tokens = lex(alloc, src)?;
    parse(alloc, src.len() as u32, tokens.as_slice())
}

/// Whether a source is printed so.
pub fn is_printed(alloc: Global, src: &[u8], want: &[u8]) -> bool {
    match printed(alloc, src) {
        Ok(text) => text.as_slice() == want,
        Err(_) => false,
    }
}

// What a tree is printed as.
fn printed_tree(alloc: Global, program: &Program) -> Result<Vec<u8>, Refused> {
    Ok(print(alloc, program)?)
}

// What the tree of a source is printed as.
fn printed(alloc: Global, src: &[u8]) -> Result<Vec<u8>, Refused> {
    let program = tree_of(alloc, src)?;
    printed_tree(alloc, &program)
}

// Whether the printed source is printed as it is.
fn is_same(alloc: Global, src: &[u8]) -> bool {
    match printed(alloc, src) {
        Ok(text) => is_printed(alloc, text.as_slice(), text.as_slice()),
        Err(_) => false,
    }
}

// Whether a text is a source, or has a fault that stands in it or at its end.
fn is_answered(alloc: Global, src: &[u8]) -> bool {
    match tree_of(alloc, src) {
        Ok(_) => true,
        Err(Refused::Source(fault)) => fault.span.from as usize <= src.len(),
        Err(Refused::NoMemory) => false,
    }
}

// Whether each text that a source begins with is answered.
fn are_fronts_answered(alloc: Global, src: &[u8]) -> bool {
    for len in 0..src.len() {
        if !is_answered(alloc, &src[..len]) {
            return false;
        }
    }
    true
}

// Whether a source is printed and read back, and each text that it begins with is answered.
fn is_read_back(alloc: Global, src: &[u8]) -> bool {
    is_same(alloc, src) && are_fronts_answered(alloc, src)
}

/// Fails with the first whole program that isn't printed and read back, or of which a front has no answer.
pub fn expect_read_back(alloc: Global) -> Result<(), Fail> {
    for src in &SOURCES {
        if !is_read_back(alloc, src.as_bytes()) {
            return Err(Fail::new(*src));
        }
    }
    Ok(())
}
