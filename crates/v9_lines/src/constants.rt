// Document 01, "Worked lines": `result_line::run_line` held to constant byte strings, at least one for each refusal and each stop reason. An executable is
// written as its header (magic, bss, entry, data start) and its body. Refusal 1 is about M alone, and is never met: M is 32,768.

// Writes what is compared and whether the executable's line is the one expected; where it is not, the line too.
fn compare(what: &[u8], file: &[u8], expected: &[u8]) {
    let mut memory = [0; 32768];
    let mut console = io::buffer();
    let mut shown = [0; 256];
    let end = result_line::run_line(file, &mut memory, &mut console, &mut shown);
    io::write_all(1, what);
    if &shown[..end] == expected {
        io::write_all(1, b": equal to ");
    } else {
        io::write_all(1, b": ");
        io::write_all(1, &shown[..end]);
        io::write_all(1, b" DIFFERS from ");
    }
    io::write_all(1, expected);
    io::write_all(1, b"\n");
}

fn refusals() {
    compare(b"no byte", b"", b"refused 7");
    compare(
        b"15 bytes",
        b"\x0d\xf0\xde\xc0\0\0\0\0\0\0\0\0\0\0\0",
        b"refused 7",
    );
    compare(
        b"magic 0xC0DEF00C",
        b"\x0c\xf0\xde\xc0\0\0\0\0\0\0\0\0\x04\0\0\0\0\0\0\0",
        b"refused 8",
    );
    compare(
        b"16 bytes",
        b"\x0d\xf0\xde\xc0\0\0\0\0\0\0\0\0\0\0\0\0",
        b"refused 9",
    );
    compare(
        b"data start 5, body 4",
        b"\x0d\xf0\xde\xc0\0\0\0\0\0\0\0\0\x05\0\0\0\0\0\0\0",
        b"refused 10",
    );
    compare(
        b"entry 2",
        b"\x0d\xf0\xde\xc0\0\0\0\0\x02\0\0\0\x08\0\0\0\0\0\0\0\0\0\0\0",
        b"refused 11",
    );
    compare(
        b"entry 2^32 - 4",
        b"\x0d\xf0\xde\xc0\0\0\0\0\xfc\xff\xff\xff\x04\0\0\0\0\0\0\0",
        b"refused 11",
    );
}

fn stops() {
    compare(
        b"JMP to itself",
        b"\x0d\xf0\xde\xc0\0\0\0\0\0\0\0\0\x04\0\0\0\x03\xfc\xff\xff",
        b"stop 0 steps 100000 a 0 b 0 c 0 sp 32768 pc 0",
    );
    compare(
        b"P1 and HALT",
        b"\x0d\xf0\xde\xc0\0\0\0\0\0\0\0\0\x0c\0\0\0\x23\0\0\0\x24\0\x7c\x92\0\0\0\0",
        b"stop 1 steps 3 a 9600000 b 0 c 0 sp 32768 pc 12",
    );
    compare(
        b"LBI 10, TRAP while iena = 0",
        b"\x0d\xf0\xde\xc0\0\0\0\0\0\0\0\0\x08\0\0\0\x3b\x0a\0\0\xa9\0\0\0",
        b"stop 2 steps 2 a 0 b 10 c 0 sp 32768 pc 4",
    );
    compare(
        b"ENT 8, STI, TRAP: no frame",
        b"\x0d\xf0\xde\xc0\0\0\0\0\0\0\0\0\x0c\0\0\0\x01\x08\0\0\x97\0\0\0\xa9\0\0\0",
        b"stop 3 steps 3 a 0 b 0 c 0 sp 32776 pc 8",
    );
    compare(
        b"BIN without a key, HALT",
        b"\x0d\xf0\xde\xc0\0\0\0\0\0\0\0\0\x08\0\0\0\x99\0\0\0\0\0\0\0",
        b"stop 1 steps 2 a 4294967295 b 0 c 0 sp 32768 pc 8",
    );
    compare(
        b"LI -1, LBI -1, LCA, ENT -32776, JMP -24",
        b"\x0d\xf0\xde\xc0\0\0\0\0\0\0\0\0\x14\0\0\0\x23\xff\xff\xff\x3b\xff\xff\xff\xad\0\0\0\x01\xf8\x7f\xff\x03\xe8\xff\xff",
        b"stop 2 steps 6 a 4294967295 b 4294967295 c 4294967295 sp 4294967288 pc 4294967292",
    );
}

// All comparisons.
pub fn compare_all() {
    refusals();
    stops();
}
