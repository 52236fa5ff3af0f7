//! Tables, templates and programs that are damaged, and the place of the damage.
use crate::runs::check_rows;
use std::test::Fail;

/// The files of the shelf.
static FILES: &str = "\
a.table:m = 7;p = 2;factor = [1, 1, 0, 1];dual = [[1,0,0],[0,0,1],[0,1,0]];generators = [[6, 2]];
x.slots:0 1 0;1 0 0;
crossed.table:m = 7;p = 2;factor = [1, 1, 0, 1];dual = [[1,0,0],[0,0,1],[0,1,0]];generators = [[6, 2]];weight = 2;digits = [1];chain = [[113, 7, 40, 1]];special = [[337, 285, 191, 1]];inverse = [[], [171]];
heavy.table:m = 7;p = 2;factor = [1, 1, 0, 1];dual = [[1,0,0],[0,0,1],[0,1,0]];generators = [[6, 2]];weight = 7;digits = [1];chain = [[113, 7, 40, 1]];special = [[337, 285, 191, 1]];inverse = [[], [170]];
power.table:m = 7;p = 2;factor = [1, 1, 0, 1];dual = [[1,0,0],[0,0,1],[0,1,0]];generators = [[3, 1]];
frobenius.table:m = 3;p = 4;factor = [1, 1];dual = [[1]];generators = [[2, 2]];
divisor.table:m = 7;p = 2;factor = [1, 1, 1, 1];dual = [[1,0,0],[0,0,1],[0,1,0]];generators = [[6, 2]];
basis.table:m = 7;p = 2;factor = [1, 1, 0, 1];dual = [[1,0,0],[0,1,0],[0,0,1]];generators = [[6, 2]];
even.table:m = 7;p = 2;factor = [1, 1, 0, 1];dual = [[1,0,0],[0,0,1],[0,1,0]];generators = [[6, 2]];weight = 2;digits = [1];chain = [[112, 7, 40, 1]];special = [[337, 285, 191, 1]];inverse = [[], [170]];
residue.table:m = 7;p = 2;factor = [1, 1, 0, 1];dual = [[1,0,0],[0,0,1],[0,1,0]];generators = [[6, 2]];weight = 2;digits = [1];chain = [[115, 7, 40, 1]];special = [[337, 285, 191, 1]];inverse = [[], [170]];
half.table:m = 7;p = 2;factor = [1, 1, 0, 1];dual = [[1,0,0],[0,0,1],[0,1,0]];generators = [[6, 2]];weight = 2;digits = [1];chain = [[113, 8, 40, 1]];special = [[337, 285, 191, 1]];inverse = [[], [170]];
one.table:m = 7;p = 2;factor = [1, 1, 0, 1];dual = [[1,0,0],[0,0,1],[0,1,0]];generators = [[6, 2]];weight = 2;digits = [1];chain = [[113, 1, 40, 1]];special = [[337, 285, 191, 1]];inverse = [[], [170]];
plain.table:m = 7;p = 2;factor = [1, 1, 0, 1];dual = [[1,0,0],[0,0,1],[0,1,0]];generators = [[6, 2]];weight = 2;digits = [1];chain = [[113, 7, 40, 1]];special = [[337, 285, 191, 0]];inverse = [[], [170]];
noseven.table:m = 000000000000000000007;p = 2;factor = [1, 1, 0, 1];dual = [[1,0,0],[0,0,1],[0,1,0]];generators = [[6, 2]];
wide21.table:m = 100000000000000000007;p = 2;factor = [1, 1, 0, 1];dual = [[1,0,0],[0,0,1],[0,1,0]];generators = [[6, 2]];
twice.table:m = 7;p = 2;factor = [1, 1, 0, 1];dual = [[1,0,0],[0,0,1],[0,1,0]];generators = [[6, 2]];m = 7;
open.table:m = 7;p = 2;factor = [1, 1, 0, 1];dual = [[1,0,0],[0,0,1],[0,1,0]];generators = [[6, 2];
nop.table:m = 7;factor = [1, 1, 0, 1];dual = [[1,0,0],[0,0,1],[0,1,0]];generators = [[6, 2]];
word.table:m = 7;p = \"2\";factor = [1, 1, 0, 1];dual = [[1,0,0],[0,0,1],[0,1,0]];generators = [[6, 2]];
minus.table:m = 7;p = -2;factor = [1, 1, 0, 1];dual = [[1,0,0],[0,0,1],[0,1,0]];generators = [[6, 2]];
dualless.table:m = 7;p = 2;factor = [1, 1, 0, 1];generators = [[6, 2]];
further.table:m = 7;p = 2;factor = [1, 1, 0, 1];dual = [[1,0,0],[0,0,1],[0,1,0]];generators = [[6, 2]];name = 1;
farther.table:m = 7;p = 2;factor = [1, 1, 0, 1];dual = [[1,0,0],[0,0,1],[0,1,0]];generators = [[6, 2]];weight = 2;digits = [1];chain = [[113, 7, 40, 1]];special = [[337, 285, 191, 1]];inverse = [[], [170]];a.b = [];
wraps32.table:m = 65536;p = 65537;factor = [1, 1];dual = [[1]];generators = [[1, 43691], [1, 49152], [1, 2]];
wraps64.table:m = 65536;p = 65537;factor = [1, 1];dual = [[1]];generators = [[1, 52463], [1, 51922], [1, 41547], [1, 61760], [1, 256]];
factors.tmpl:m = 7;p = 2;factor = [1, 1, 0, 0];dual = [[1,0,0],[0,0,1],[0,1,0]];generators = [[6, 2]];weight = 2;digits = [1];chain = [113];special = [337];
duals.tmpl:m = 7;p = 2;factor = [1, 1, 0, 1];dual = [[1,0,0],[0,0,1],[0,1,2]];generators = [[6, 2]];weight = 2;digits = [1];chain = [113];special = [337];
gens.tmpl:m = 7;p = 2;factor = [1, 1, 0, 1];dual = [[1,0,0],[0,0,1],[0,1,0]];generators = [[7, 2]];weight = 2;digits = [1];chain = [113];special = [337];
weights.tmpl:m = 7;p = 2;factor = [1, 1, 0, 1];dual = [[1,0,0],[0,0,1],[0,1,0]];generators = [[6, 2]];weight = 0;digits = [1];chain = [113];special = [337];
digit.tmpl:m = 7;p = 2;factor = [1, 1, 0, 1];dual = [[1,0,0],[0,0,1],[0,1,0]];generators = [[6, 2]];weight = 2;digits = [1, 1];chain = [113];special = [337];
chains.tmpl:m = 7;p = 2;factor = [1, 1, 0, 1];dual = [[1,0,0],[0,0,1],[0,1,0]];generators = [[6, 2]];weight = 2;digits = [1];chain = [];special = [337];
empties.tmpl:m = 7;p = 2;factor = [1, 1, 0, 1];dual = [[1,0,0],[0,0,1],[0,1,0]];generators = [[6, 2]];weight = 2;digits = [];chain = [];special = [337];
rows.tmpl:m = 7;p = 2;factor = [1, 1, 0, 1];dual = [[1,0,0],[0,0,1],[0,1,0]];generators = [[6, 2]];weight = 2;digits = [1];chain = [[113, 7, 40, 1]];special = [337];
special.tmpl:m = 7;p = 2;factor = [1, 1, 0, 1];dual = [[1,0,0],[0,0,1],[0,1,0]];generators = [[6, 2]];weight = 2;digits = [1];chain = [113];special = [4611686018427387905];
specials.tmpl:m = 7;p = 2;factor = [1, 1, 0, 1];dual = [[1,0,0],[0,0,1],[0,1,0]];generators = [[6, 2]];weight = 2;digits = [1];chain = [113];
other.tmpl:m = 7;p = 2;factor = [1, 1, 0, 1];dual = [[1,0,0],[0,0,1],[0,1,0]];generators = [[6, 2]];weight = 2;digits = [1];chain = [113];special = [337];name = 1;
opened.tmpl:m = 7;p = 2;factor = [1, 1, 0, 1];dual = [[1,0,0],[0,0,1],[0,1,0]];generators = [[6, 2]];weight = 2;digits = [1];chain = [113];special = [337;
long.tmpl:m = 65537;p = 2;factor = [1, 1, 0, 1];dual = [[1,0,0],[0,0,1],[0,1,0]];generators = [[6, 2]];weight = 2;digits = [1];chain = [113];special = [337];
digits.prog:input x;z = rotate 0 000000000000000000001 x;output z;
amount.prog:input x;z = rotate 0 4294967296 x;output z;
dim.prog:input x;z = rotate 1 1 x;output z;
unit.prog:input x;z = auto 7 x;output z;
null.prog:input x;z = auto 0 x;output z;
plus.prog:input x;z = plus x x;output z;
name.prog:input x;Z = add x x;output Z;
cut.prog:input x;const c 1,0,0;output x;
large.prog:input x;const c 1,0,0 0,2,0;output x;
many.prog:input x;const c 3*1,0,0;output x;
shown.prog:input x;const c 2*1,0,0;output c;
added.prog:input x;const c 2*1,0,0;y = add x c;output y;
mixed.prog:input x;y = addc x x;output y;";

/// The cases.
static ROWS: &str = "\
table crossed:stopped 0 BadTable Inverse 0 1;:5
table heavy:stopped 0 BadTable Weight;:5
table power:stopped 0 BadTable NotPower 0;:5
table frobenius:stopped 0 BadTable NotFrobenius;:5
table divisor:stopped 0 BadTable NotDivisor;:5
table basis:stopped 0 BadTable Dual 1 1;:5
table even:stopped 0 BadTable Size 0;:5
table residue:stopped 0 BadTable Residue 0;:5
table half:stopped 0 BadTable HalfRoot 0;:5
table one:stopped 0 BadTable Root 0;:5
table plain:stopped 0 BadTable PlainInverse 1;:5
table noseven:stopped 0 BadTable Text;:5
table wide21:stopped 0 BadTable Text;:5
table twice:stopped 0 BadTable Text;:5
table open:stopped 0 BadTable Text;:5
table nop:stopped 0 BadTable Shape p;:5
table word:stopped 0 BadTable Shape p;:5
table minus:stopped 0 BadTable Shape p;:5
table dualless:stopped 0 BadTable Shape dual;:5
table further:stopped 0 BadTable Shape other;:5
table farther:stopped 0 BadTable Shape other;:5
table wraps32:stopped 0 BadTable WrongCount;:5
table wraps64:stopped 0 BadTable WrongCount;:5
maketable factors made:stopped 0 BadTemplate factor;:9
maketable duals made:stopped 0 BadTemplate dual;:9
maketable gens made:stopped 0 BadTemplate generators;:9
maketable weights made:stopped 0 BadTemplate weight;:9
maketable digit made:stopped 0 BadTemplate digits;:9
maketable chains made:stopped 0 BadTemplate digits;:9
maketable empties made:stopped 0 BadTemplate chain;:9
maketable rows made:stopped 0 BadTemplate chain;:9
maketable special made:stopped 0 BadTemplate special;:9
maketable specials made:stopped 0 BadTemplate special;:9
maketable other made:stopped 0 BadTemplate other;:9
maketable opened made:stopped 0 BadTemplate text;:9
maketable long made:stopped 0 BadTemplate m;:9
clear a digits x:stopped 0 BadProgram 2;:7
clear a amount x:stopped 0 BadProgram 2;:7
clear a dim x:stopped 0 BadProgram 2;:7
clear a unit x:stopped 0 BadProgram 2;:7
clear a null x:stopped 0 BadProgram 2;:7
clear a plus x:stopped 0 BadProgram 2;:7
clear a name x:stopped 0 BadProgram 2;:7
clear a cut x:stopped 0 BadProgram 2;:7
clear a large x:stopped 0 BadProgram 2;:7
clear a many x:stopped 0 BadProgram 2;:7
clear a shown x:stopped 0 BadProgram 3;:7
clear a added x:stopped 0 BadProgram 3;:7
clear a mixed x:stopped 0 BadProgram 2;:7";

/// The files of the shelf.
fn files() -> &'static str {
    FILES
}

/// The cases.
fn rows() -> &'static str {
    ROWS
}

#[test]
fn damaged_texts(rt: HostRuntime) -> Result<(), Fail> {
    check_rows(&rt, files(), rows())
}
