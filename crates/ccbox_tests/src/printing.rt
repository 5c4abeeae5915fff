// What trees are printed as.

use crate::sources::{expect_read_back, is_printed};
use std::alloc::Global;
use std::test::Fail;

// A source, and what it is printed as.
struct Row(&'static str, &'static str);

static ROWS: [Row; 12] = [
    Row("", "\n"),
    Row(
        "int g = 1; int main(void) { ptr<int> p = &g; *p = 41; return g + 1; }\n",
        "int g = 1 ; int main ( void ) { ptr < int > p = & g ; * p = 41 ; return g + 1 ; }\n",
    ),
    Row("int x=a>>b>c;", "int x = ( a >> b ) > c ;\n"),
    Row(
        "int x=((a+b))*-c[d-(e)];",
        "int x = ( a + b ) * ( - c [ d - e ] ) ;\n",
    ),
    Row(
        "#pragma CHECKED_SCOPE ON\nint x;\n#pragma CHECKED_SCOPE off\n",
        "#pragma CHECKED_SCOPE on\nint x ;\n#pragma CHECKED_SCOPE off\n",
    ),
    Row(
        "#pragma CHECKED_SCOPE Off\n#pragma CHECKED_SCOPE PUSH\n# pragma  CHECKED_SCOPE on // c\n#pragma CHECKED_SCOPE pop\nint x;",
        "#pragma CHECKED_SCOPE off\n#pragma CHECKED_SCOPE off\n#pragma CHECKED_SCOPE on\n#pragma CHECKED_SCOPE off\nint x ;\n",
    ),
    Row(
        "int a=0x0;int b=0XfF;int c=2147483647;int d=0x7fffffff;",
        "int a = 0 ; int b = 255 ; int c = 2147483647 ; int d = 2147483647 ;\n",
    ),
    Row(
        "char a='a';char b='\\n';char c='\\t';char d='\\r';char e='\\0';char f='\\'';char g='\\\"';char h='\"';char i='\\xfF';",
        "char a = 'a' ; char b = '\\x0a' ; char c = '\\x09' ; char d = '\\x0d' ; char e = '\\x00' ; char f = '\\x27' ; char g = '\\x22' ; char h = '\\x22' ; char i = '\\xff' ;\n",
    ),
    Row(
        "int a=b^c;int d=~e;int f=!g;int h=i%j;int k=l/m;int n=o|p;int q=r||s;int t=u<<v;int w=x!=y;int z=a<=b;int c=d>=e;",
        "int a = b ^ c ; int d = ~ e ; int f = ! g ; int h = i % j ; int k = l / m ; int n = o | p ; int q = r || s ; int t = u << v ; int w = x != y ; int z = a <= b ; int c = d >= e ;\n",
    ),
    Row("_Array_ptr<_Ptr<int>>p;", "array_ptr < ptr < int > > p ;\n"),
    Row(
        "nt_array_ptr<char> s=\"a\\n\\\"'z\";char c='\\\\';",
        "nt_array_ptr < char > s = \"a\\x0a\\x22\\x27z\" ; char c = '\\x5c' ;\n",
    ),
    Row(
        "#define N -4\nint f(){(a+b)=N;(*p)+=0x10;if(a)if(b);else;}",
        "int f ( ) { ( a + b ) = - 4 ; * p += 16 ; if ( a ) if ( b ) ; else ; }\n",
    ),
];

// Fails with the first row that is printed otherwise.
fn expect_printed(alloc: Global) -> Result<(), Fail> {
    for Row(src, want) in &ROWS {
        if !is_printed(alloc, src.as_bytes(), want.as_bytes()) {
            return Err(Fail::new(*src));
        }
    }
    Ok(())
}

/// Fails unless trees are printed, and read back, as they must be.
pub fn printing(alloc: Global) -> Result<(), Fail> {
    expect_printed(alloc)?;
    expect_read_back(alloc)
}
