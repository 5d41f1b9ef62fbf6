//! The trees that sources spell: how operations group, which `if` has an `else`, and the lines of
//! braces.
use super::parsed;
use c_tree::syntax::{Binary, Change, Expr, Item, Stmt, Tree, Unary};
use mpc_values::Memory;
use std::alloc::Global;
use std::test::Fail;

fn binary_text(sign: Binary) -> &'static str {
    match sign {
        Binary::Multiply => "*",
        Binary::Divide => "/",
        Binary::Remainder => "%",
        Binary::Add => "+",
        Binary::Subtract => "-",
        Binary::ShiftLeft => "<<",
        Binary::ShiftRight => ">>",
        Binary::Less => "<",
        Binary::Greater => ">",
        Binary::LessEqual => "<=",
        Binary::GreaterEqual => ">=",
        Binary::Equal => "==",
        Binary::NotEqual => "!=",
        Binary::BitAnd => "&",
        Binary::BitXor => "^",
        Binary::BitOr => "|",
        Binary::And => "&&",
        Binary::Or => "||",
    }
}

fn unary_text(sign: Unary) -> &'static str {
    match sign {
        Unary::Minus => "-",
        Unary::Plus => "+",
        Unary::Not => "!",
        Unary::Complement => "~",
        Unary::Indirection => "*",
        Unary::Address => "&",
    }
}

fn change_text(change: Change) -> &'static str {
    match change {
        Change::Increment => "++",
        Change::Decrement => "--",
    }
}

// Want of memory leaves the text short, so that it is not the wanted one.
fn put(out: &mut Vec<u8>, text: &[u8]) {
    let _ = out.extend_from_slice(text);
}

// The expression with brackets around all that is made of more than one.
fn put_expr(expr: &Expr, out: &mut Vec<u8>) {
    match expr {
        Expr::Name(_, name) => put(out, name.as_slice()),
        Expr::Text(_, text) => put(out, text.as_slice()),
        Expr::Number(_, _, _) => put(out, b"0"),
        Expr::SizeOf(_, _) => put(out, b"sizeof"),
        Expr::Call(_, name, arguments) => {
            put(out, name.as_slice());
            put(out, b"(");
            for argument in arguments {
                put_expr(argument, out);
                put(out, b",");
            }
            put(out, b")");
        }
        Expr::Index(_, array, index) => {
            put(out, b"(");
            put_expr(array, out);
            put(out, b"@");
            put_expr(index, out);
            put(out, b")");
        }
        Expr::Field(_, operand, name) => {
            put(out, b"(");
            put_expr(operand, out);
            put(out, b".");
            put(out, name.as_slice());
            put(out, b")");
        }
        Expr::Postfix(_, change, operand) => {
            put(out, b"(");
            put_expr(operand, out);
            put(out, change_text(*change).as_bytes());
            put(out, b")");
        }
        Expr::Prefix(_, change, operand) => {
            put(out, b"(");
            put(out, change_text(*change).as_bytes());
            put_expr(operand, out);
            put(out, b")");
        }
        Expr::Unary(_, sign, operand) => {
            put(out, b"(");
            put(out, unary_text(*sign).as_bytes());
            put_expr(operand, out);
            put(out, b")");
        }
        Expr::Cast(_, to, operand) => {
            put(out, if to.pointer { b"(cast* " } else { b"(cast_ " });
            put_expr(operand, out);
            put(out, b")");
        }
        Expr::Binary(_, sign, left, right) => {
            put(out, b"(");
            put_expr(left, out);
            put(out, binary_text(*sign).as_bytes());
            put_expr(right, out);
            put(out, b")");
        }
        Expr::Choice(_, test, yes, no) => {
            put(out, b"(");
            put_expr(test, out);
            put(out, b"?");
            put_expr(yes, out);
            put(out, b":");
            put_expr(no, out);
            put(out, b")");
        }
        Expr::Assign(_, sign, left, right) => {
            put(out, b"(");
            put_expr(left, out);
            if let Some(sign) = sign {
                put(out, binary_text(*sign).as_bytes());
            }
            put(out, b"=");
            put_expr(right, out);
            put(out, b")");
        }
    }
}

// What kind of statement it is, with what it holds.
fn put_stmt(stmt: &Stmt, out: &mut Vec<u8>) {
    match stmt {
        Stmt::Eval(_, value) => put_expr(value, out),
        Stmt::Block(_, items, _) => {
            put(out, b"{");
            for item in items {
                put_stmt(item, out);
                put(out, b";");
            }
            put(out, b"}");
        }
        Stmt::If(_, test, body) => {
            put(out, b"if ");
            put_expr(test, out);
            put(out, b" [");
            put_stmt(body, out);
            put(out, b"]");
        }
        Stmt::IfElse(_, test, body, other) => {
            put(out, b"if ");
            put_expr(test, out);
            put(out, b" [");
            put_stmt(body, out);
            put(out, b"] else [");
            put_stmt(other, out);
            put(out, b"]");
        }
        Stmt::While(_, test, body) => {
            put(out, b"while ");
            put_expr(test, out);
            put(out, b" [");
            put_stmt(body, out);
            put(out, b"]");
        }
        Stmt::DoWhile(_, body, test) => {
            put(out, b"do [");
            put_stmt(body, out);
            put(out, b"] while ");
            put_expr(test, out);
        }
        _ => put(out, b"other"),
    }
}

// The items of the body of the source's last function.
fn put_tree(tree: &Tree, out: &mut Vec<u8>) {
    for item in &tree.items {
        if let Item::Function(function) = item
            && let Some(body) = &function.body
        {
            for stmt in &body.items {
                put_stmt(stmt, out);
                put(out, b";");
            }
        }
    }
}

// The statements of a function, as they group; empty where the source is refused.
fn shape(alloc: Global, statements: &str) -> Result<Vec<u8>, Memory> {
    let mut src = String::from_str(alloc, "int f(void) { ")?;
    src.push_str(statements)?;
    src.push_str(" }")?;
    let mut out = Vec::new(alloc);
    if let Ok(tree) = parsed(alloc, src.as_str())? {
        put_tree(&tree, &mut out);
    }
    Ok(out)
}

#[test]
fn each_level_groups_as_it_is_to(rt: HostRuntime) -> Result<(), Fail> {
    let cases = [
        ("a || b || c;", "((a||b)||c);"),
        ("a && b && c;", "((a&&b)&&c);"),
        ("a | b | c;", "((a|b)|c);"),
        ("a ^ b ^ c;", "((a^b)^c);"),
        ("a & b & c;", "((a&b)&c);"),
        ("a == b != c == d;", "(((a==b)!=c)==d);"),
        ("a < b <= c > d >= e;", "((((a<b)<=c)>d)>=e);"),
        ("a << b >> c << d;", "(((a<<b)>>c)<<d);"),
        ("a - b + c - d;", "(((a-b)+c)-d);"),
        ("a / b * c % d;", "(((a/b)*c)%d);"),
        (
            "a || b && c | d ^ e & f == g < h << i + j * k;",
            "(a||(b&&(c|(d^(e&(f==(g<(h<<(i+(j*k))))))))));",
        ),
        (
            "a * b + c << d < e == f & g ^ h | i && j || k;",
            "((((((((((a*b)+c)<<d)<e)==f)&g)^h)|i)&&j)||k);",
        ),
        ("a + b * c + d;", "((a+(b*c))+d);"),
        ("a * (b + c) * d;", "((a*(b+c))*d);"),
        ("a = b = c;", "(a=(b=c));"),
        ("a -= b <<= c;", "(a-=(b<<=c));"),
        ("a = b ? c : d;", "(a=(b?c:d));"),
        ("a ? b : c ? d : e;", "(a?b:(c?d:e));"),
        ("a ? b ? c : d : e;", "(a?(b?c:d):e);"),
        ("a || b ? c = d : e;", "((a||b)?(c=d):e);"),
        ("-a * !b;", "((-a)*(!b));"),
        ("- -a - - b;", "((-(-a))-(-b));"),
        ("*&~+a;", "(*(&(~(+a))));"),
        ("++a++;", "(++(a++));"),
        ("-- --a;", "(--(--a));"),
        ("*a++;", "(*(a++));"),
        ("-a[b].c;", "(-((a@b).c));"),
        ("a[b][c]--;", "(((a@b)@c)--);"),
        ("f(a, b = c, g())[d];", "(f(a,(b=c),g(),)@d);"),
        ("(int) a + b;", "((cast_ a)+b);"),
        ("(long *) a++;", "(cast* (a++));"),
        ("(int) -a[b];", "(cast_ (-(a@b)));"),
        ("sizeof(int) * a;", "(sizeof*a);"),
        ("((a)) = \"t\";", "(a=\"t\");"),
        ("if (a) if (b) c; else d;", "if a [if b [c] else [d]];"),
        (
            "if (a) { if (b) c; } else d;",
            "if a [{if b [c];}] else [d];",
        ),
        (
            "if (a) b; else if (c) d; else e;",
            "if a [b] else [if c [d] else [e]];",
        ),
        (
            "while (a) if (b) c; else d; e;",
            "while a [if b [c] else [d]];e;",
        ),
        ("do if (a) b; while (c);", "do [if a [b]] while c;"),
    ];
    for (statements, want) in cases {
        let found = shape(rt.alloc(), statements)?;
        assert_eq!(rt; found.as_slice(), want.as_bytes(), "{statements}");
    }
    Ok(())
}

#[test]
fn lines_of_braces_and_of_the_last_token(rt: HostRuntime) -> Result<(), Fail> {
    let src = "int g;\nint f(void)\n{\n  {\n  a;\n }\n\n}\n#pragma omp x\n\n";
    match parsed(rt.alloc(), src)? {
        Err(_) => assert!(rt; false),
        Ok(tree) => {
            assert_eq!(rt; tree.last_line, 8);
            assert_eq!(rt; tree.items.len(), 2);
            if let Item::Function(function) = &tree.items[1]
                && let Some(body) = &function.body
            {
                assert_eq!(rt; (body.at.line, body.at.col, body.end_line), (3, 1, 8));
                assert_eq!(rt; body.items.len(), 1);
                if let Stmt::Block(at, items, end_line) = &body.items[0] {
                    assert_eq!(rt; (at.line, at.col, *end_line), (4, 3, 6));
                    assert_eq!(rt; items.len(), 1);
                } else {
                    assert!(rt; false);
                }
            } else {
                assert!(rt; false);
            }
        }
    }
    Ok(())
}
