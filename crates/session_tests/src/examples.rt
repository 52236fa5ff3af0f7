//! The examples of the repository as sessions, command by command, and `clear` over tables that have moduli.
use crate::runs::check_rows;
use std::test::Fail;

/// The files of the example of keys and ciphertexts.
static ENCRYPTED: &str = "\
a.tmpl:m = 7;p = 2;factor = [1, 1, 0, 1];dual = [[1, 0, 0], [0, 0, 1], [0, 1, 0]];generators = [[6, 2]];weight = 2;digits = [1, 1, 1];chain = [469762049, 7340033, 998244353];special = [31525197391593473];
z.seed:0000000000000000000000000000000000000000000000000000000000000000;
x.slots:0 1 0;1 0 0;";

/// Its commands.
static COMMANDS: &str = "\
maketable a a|keygen a k z 1|pubkey k z 2|encrypt k c z 3 x|noise c|decrypt k c:level 2 bound 1086 limit 3057123754*2^49;0 1 0;1 0 0;:0";

/// The files of the example of an array that is turned.
static TURNED: &str = "\
c.table:m = 32;p = 17;factor = [14, 0, 1];dual = [[9, 0], [0, 3]];generators = [[31, 2], [5, 4]];
turn.prog:# three places along dimension 1;input x;z = rotate 1 3 x;output z;
x.slots:1 1;2 1;3 1;4 1;5 1;6 1;7 1;8 1;";

/// Its commands.
static TURNS: &str = "\
table c|clear c turn x:m 32 n 16 p 17 d 2 slots 8;dim 0 generator 31 size 2 good;dim 1 generator 5 size 4 bad;2 1;3 1;4 1;1 1;6 1;7 1;8 1;5 1;:0";

/// Templates, programs and arrays.
static FILES: &str = "\
a.tmpl:m = 7;p = 2;factor = [1, 1, 0, 1];dual = [[1, 0, 0], [0, 0, 1], [0, 1, 0]];generators = [[6, 2]];weight = 2;digits = [1, 1, 1];chain = [469762049, 7340033, 998244353];special = [31525197391593473];
a3.tmpl:m = 7;p = 2;factor = [1, 1, 0, 1];dual = [[1, 0, 0], [0, 0, 1], [0, 1, 0]];generators = [[3, 2]];weight = 2;digits = [1, 1, 1];chain = [469762049, 7340033, 998244353];special = [31525197391593473];
c.tmpl:m = 32;p = 17;factor = [14, 0, 1];dual = [[9, 0], [0, 3]];generators = [[31, 2], [5, 4]];weight = 4;digits = [1, 1];chain = [4222124650659841, 7881299347898369];special = [31525197391593473];
d.tmpl:m = 24;p = 5;factor = [2, 1, 1];dual = [[4, 2], [2, 4]];generators = [[7, 2], [13, 2]];weight = 2;digits = [1, 1];chain = [3799912185593857, 4222124650659841];special = [1945555039024054273];
prod.prog:input x;input y;z = mul x y;output z;
same.prog:input x;output x;
auto.prog:input x;z = auto 3 x;output z;
turn.prog:input x;z = rotate 0 1 x;output z;
still.prog:input x;z = rotate 0 2 x;output z;
zero.prog:input x;z = rotate 0 0 x;output z;
third.prog:input x;z = rotate 1 3 x;output z;
up.prog:input x;z = rotate 1 1 x;output z;
both.prog:input x;y = rotate 0 1 x;z = rotate 1 1 y;output z;
x.slots:0 1 0;1 0 0;
y.slots:0 0 1;1 1 1;
count.slots:1 1;2 1;3 1;4 1;5 1;6 1;7 1;8 1;
four.slots:1 0;2 0;3 0;4 0;
none.slots:
one.slots:0 1 0;
three.slots:0 1 0;1 0 0;1 0 0;
two.slots:0 2 0;1 0 0;";

/// The cases.
static ROWS: &str = "\
maketable a a|clear a prod x y|clear a same x|clear a still x|clear a zero x:1 1 0;1 1 1;0 1 0;1 0 0;0 1 0;1 0 0;0 1 0;1 0 0;:0
maketable a3 a3|clear a3 auto x|clear a3 turn x|clear a3 still x|clear a3 zero x:1 0 0;0 0 1;1 0 0;0 1 0;0 1 0;1 0 0;0 1 0;1 0 0;:0
maketable c c|clear c third count:2 1;3 1;4 1;1 1;6 1;7 1;8 1;5 1;:0
maketable d d|clear d turn four|clear d up four|clear d both four:3 0;4 0;1 0;2 0;2 0;1 0;4 0;3 0;4 0;3 0;2 0;1 0;:0
maketable a a|clear a same none|clear a same one|clear a same three|clear a same two:stopped 0 BadSlots 1;stopped 0 BadSlots 2;stopped 0 BadSlots 3;stopped 0 BadSlots 1;:6
maketable a a|clear a prod x:stopped 0 Arity 1 2;:14";

/// The files and the commands.
fn encrypted() -> (&'static str, &'static str) {
    (ENCRYPTED, COMMANDS)
}

/// The files and the commands.
fn turned() -> (&'static str, &'static str) {
    (TURNED, TURNS)
}

/// The files and the cases.
fn full() -> (&'static str, &'static str) {
    (FILES, ROWS)
}

#[test]
fn example_of_keys_and_ciphertexts(rt: HostRuntime) -> Result<(), Fail> {
    let (files, commands) = encrypted();
    check_rows(&rt, files, commands)
}

#[test]
fn example_of_an_array_that_is_turned(rt: HostRuntime) -> Result<(), Fail> {
    let (files, commands) = turned();
    check_rows(&rt, files, commands)
}

#[test]
fn clear_over_tables_with_moduli(rt: HostRuntime) -> Result<(), Fail> {
    let (files, rows) = full();
    check_rows(&rt, files, rows)
}
