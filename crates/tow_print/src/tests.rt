//! Texts, and the printed forms of their trees: each predicate and handler, and how they are joined.

use crate::print;
use std::alloc::Global;
use std::test::Fail;
use tow_lex::tokens;
use tow_parse::parse;

const PREDICATES: [(&[u8], &[u8]); 16] = [
    (b"true -> done", b"true -> done\n"),
    (b"false->{}", b"false -> { }\n"),
    (b"path(\"/a\")->done", b"path(path={/a}) -> done\n"),
    (b"path[a, b]->done", b"path(path={/a, /b}) -> done\n"),
    (
        b"path-prefix('/a b\\/')->done",
        b"path-prefix(path={'/a b\\/'}) -> done\n",
    ),
    (
        b"path-suffix(.php, .cgi)->done",
        b"path-suffix(path={.php, .cgi}) -> done\n",
    ),
    (
        b"path-template('/users/{id}')->done",
        b"path-template(match='/users/{id}', value=%R) -> done\n",
    ),
    (
        b"regex('^/(.*)\\.htm$')->done",
        b"regex(pattern='^/(.*)\\.htm$', value=%R) -> done\n",
    ),
    (b"method(GET)->done", b"method(value={GET}) -> done\n"),
    (
        b"equals('%{METHOD}', 'GET')->done",
        b"equals(value={%m, GET}) -> done\n",
    ),
    (
        b"contains(value='%U', search={a, 'b c'})->done",
        b"contains(value=%U, search={a, 'b c'}) -> done\n",
    ),
    (
        b"exists('%{q,debug}')->done",
        b"exists(value=%{q,debug}) -> done\n",
    ),
    (
        b"not(true or false)->{}else done",
        b"not (true or false) -> { } else done\n",
    ),
    (
        b"true and (false or true) or not not true->done",
        b"true and (false or true) or not not true -> done\n",
    ),
    (
        b"true or (false or true)->done",
        b"true or (false or true) -> done\n",
    ),
    (
        b"(true and false) and true->done",
        b"true and false and true -> done\n",
    ),
];

const HANDLERS: [(&[u8], &[u8]); 17] = [
    (
        b"set(value=404, attribute=%s)",
        b"set(attribute=%s, value=404)\n",
    ),
    (b"clear(%{o,X-A})", b"clear(attribute=%{o,x-a})\n"),
    (
        b"rewrite('/app%{RELATIVE_PATH}')",
        b"rewrite(value=/app%R)\n",
    ),
    (
        b"rewrite(%%{%{METHOD}\\)",
        b"rewrite(value=%%{%{METHOD}\\)\n",
    ),
    (b"redirect('/a b')", b"redirect(value='/a b')\n"),
    (b"response-code(0410)", b"response-code(value=410)\n"),
    (
        b"header(header=X-A,value=\"it's %{METHOD} 5%%\")",
        b"header(header=x-a, value='it\\'s %m 5%%', override=true)\n",
    ),
    (
        b"allowed-methods(GET, HEAD)",
        b"allowed-methods(methods={GET, HEAD})\n",
    ),
    (b"request-limit(100)", b"request-limit(requests=100)\n"),
    (
        b"resource(/site/)",
        b"resource(location=/site, allow-listing=false)\n",
    ),
    (
        b"resource('/')",
        b"resource(location=/, allow-listing=false)\n",
    ),
    (b"blocking", b"blocking\n"),
    (
        b"access-log",
        b"access-log(format='%h %l %u %t \"%r\" %s %b')\n",
    ),
    (b"echo;restart", b"echo\nrestart\n"),
    (b"{done;{}}{}", b"{ done; { } }\n{ }\n"),
    (
        b"true->done else false->restart else echo",
        b"true -> done else false -> restart else echo\n",
    ),
    (b"\n;\n", b""),
];

/// Whether the text has a tree with this printed form.
fn is_printed(alloc: Global, text: &[u8], wanted: &[u8]) -> bool {
    let Ok(tokens) = tokens(alloc, text) else {
        return false;
    };
    let Ok(parsed) = parse(alloc, text, &tokens) else {
        return false;
    };
    match print(alloc, &parsed.tree) {
        Ok(bytes) => bytes.as_slice() == wanted,
        Err(_) => false,
    }
}

#[test]
fn predicates_are_printed(rt: HostRuntime) -> Result<(), Fail> {
    let alloc = rt.alloc();
    for (text, wanted) in PREDICATES {
        assert!(rt; is_printed(alloc, text, wanted));
    }
    Ok(())
}

#[test]
fn handlers_are_printed(rt: HostRuntime) -> Result<(), Fail> {
    let alloc = rt.alloc();
    for (text, wanted) in HANDLERS {
        assert!(rt; is_printed(alloc, text, wanted));
    }
    Ok(())
}
