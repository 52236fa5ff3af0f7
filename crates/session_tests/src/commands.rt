//! Plain arrays, tables and templates: the words, the order of the tests, and what is printed.
use crate::runs::check_rows;
use std::test::Fail;

/// The files of the shelf.
static FILES: &str = "\
a.table:m = 7;p = 2;factor = [1, 1, 0, 1];dual = [[1,0,0],[0,0,1],[0,1,0]];generators = [[6, 2]];
turned.table:generators=[[6,2]]#~;factor=[1,1,0,1]~;dual=[[1,0,0],[0,0,1],[0,1,0],]~;p=0x2;m=+7
a3.table:m = 7;p = 2;factor = [1, 1, 0, 1];dual = [[1,0,0],[0,0,1],[0,1,0]];generators = [[3, 2]];
b.table:m = 7;p = 2;factor = [1, 1, 0, 1];dual = [[1,0,0],[0,0,1],[0,1,0]];generators = [[6, 2]];weight = 2;digits = [1];chain = [[113, 7, 40, 1]];special = [[337, 285, 191, 1]];inverse = [[], [170]];
psi.table:m = 7;p = 2;factor = [1, 1, 0, 1];dual = [[1,0,0],[0,0,1],[0,1,0]];generators = [[6, 2]];weight = 2;digits = [1];chain = [[113, 7, 41, 1]];special = [[337, 285, 191, 1]];inverse = [[], [170]];
c.table:m = 32;p = 17;factor = [14, 0, 1];dual = [[9,0],[0,3]];generators = [[31, 2], [5, 4]];
d.table:m = 24;p = 5;factor = [2, 1, 1];dual = [[4,2],[2,4]];generators = [[7, 2], [13, 2]];
weighted.table:m = 7;p = 2;factor = [1, 1, 0, 1];dual = [[1,0,0],[0,0,1],[0,1,0]];generators = [[6, 2]];weight = 2;
short.table:m = 7;p = 2;factor = [1, 1, 0, 1];dual = [[1,0,0],[0,0,1],[0,1,0]];
eight.table:m = 8;p = 2;factor = [1, 1, 0, 1];dual = [[1,0,0],[0,0,1],[0,1,0]];generators = [[6, 2]];
twin.table:m = 7;p = 2;factor = [1, 1, 0, 1];dual = [[1,0,0],[0,0,1],[0,1,0]];generators = [[2, 2]];
longer.table:m = 7;p = 2;factor = [1, 1, 0, 1, 0];dual = [[1,0,0],[0,0,1],[0,1,0]];generators = [[6, 2]];
broken.table:m =
empty.table:
ma.tmpl:m = 7;p = 2;factor = [1, 1, 0, 1];dual = [[1,0,0],[0,0,1],[0,1,0]];generators = [[6, 2]];weight = 2;digits = [1, 1, 1];chain = [469762049, 7340033, 998244353];special = [31525197391593473];
mb.tmpl:m = 7;p = 2;factor = [1, 1, 0, 1];dual = [[1,0,0],[0,0,1],[0,1,0]];generators = [[6, 2]];weight = 2;digits = [1];chain = [113];special = [337];
mc.tmpl:m = 32;p = 17;factor = [14, 0, 1];dual = [[9,0],[0,3]];generators = [[31, 2], [5, 4]];weight = 4;digits = [1, 1];chain = [4222124650659841, 7881299347898369];special = [31525197391593473];
md.tmpl:m = 24;p = 5;factor = [2, 1, 1];dual = [[4,2],[2,4]];generators = [[7, 2], [13, 2]];weight = 2;digits = [1, 1];chain = [3799912185593857, 4222124650659841];special = [1945555039024054273];
rootless.tmpl:m = 7;p = 2;factor = [1, 1, 0, 1];dual = [[1,0,0],[0,0,1],[0,1,0]];generators = [[6, 2]];weight = 2;digits = [1];chain = [15];special = [337];
second.tmpl:m = 7;p = 2;factor = [1, 1, 0, 1];dual = [[1,0,0],[0,0,1],[0,1,0]];generators = [[6, 2]];weight = 2;digits = [1];chain = [113];special = [15];
nop.tmpl:m = 7;factor = [1, 1, 0, 1];dual = [[1,0,0],[0,0,1],[0,1,0]];generators = [[6, 2]];weight = 2;digits = [1];chain = [113];special = [337];
even.tmpl:m = 7;p = 2;factor = [1, 1, 0, 1];dual = [[1,0,0],[0,0,1],[0,1,0]];generators = [[6, 2]];weight = 2;digits = [1];chain = [112];special = [337];
full.tmpl:m = 7;p = 2;factor = [1, 1, 0, 1];dual = [[1,0,0],[0,0,1],[0,1,0]];generators = [[6, 2]];weight = 2;digits = [1];chain = [113];special = [337];inverse = [[], [170]];
eight.tmpl:m = 8;p = 2;factor = [1, 1, 0, 1];dual = [[1,0,0],[0,0,1],[0,1,0]];generators = [[6, 2]];weight = 2;digits = [1];chain = [113];special = [337];
equal.tmpl:m = 7;p = 2;factor = [1, 1, 0, 1];dual = [[1,0,0],[0,0,1],[0,1,0]];generators = [[6, 2]];weight = 2;digits = [1];chain = [113];special = [113];
broken.tmpl:m =
empty.tmpl:
prod.prog:input x;input y;z = mul x y;output z;
same.prog:input x;output x;
sum.prog:input x;input y;z = add x y;output z;
fifth.prog:input x;y = mul x x;z = mul y y;v = mul z x;w = add v y;output w;
odd.prog:#input q;;  input   input ~;output = mul input input; # # ;output output
minus.prog:input x;input y;z = sub x y;output z;
auto.prog:input x;z = auto 3 x;output z;
turn.prog:input x;z = rotate 0 1 x;output z;
still.prog:input x;z = rotate 0 2 x;output z;
third.prog:input x;z = rotate 1 3 x;output z;
both.prog:input x;y = rotate 0 1 x;z = rotate 1 1 y;output z;
consts.prog:input x;const c 1,0,0 0,0,0;y = mulc x c;z = addc y c;output z;
twice.prog:input x;x = add x x;output x;
later.prog:input x;z = add x y;y = add x x;output z;
after.prog:input x;output x;y = add x x;
double.prog:input x;output x;output x;
endless.prog:input x;
long.prog:input x;output x x;
empty.prog:
x.slots:0 1 0;1 0 0;
y.slots:0 0 1;1 1 1;
count.slots:1 1;2 1;3 1;4 1;5 1;6 1;7 1;8 1;
four.slots:1 0;2 0;3 0;4 0;
spaced.slots:  00  1 0 ~;1 0 0
two.slots:0 2 0;1 0 0;
one.slots:0 1 0;
none.slots:
three.slots:0 1 0;1 0 0;1 0 0;
zero.prog:input x;z = rotate 0 0 x;output z;
twenty.prog:input x;z = rotate 0 00000000000000000001 x;output z;
turned.prog:input x;z = auto 5 x;output z;
right.prog:input x;z = rotate 0 1 x;output z;
up.prog:input x;z = rotate 1 1 x;output z;";

/// The cases.
static ROWS: &str = "\
clear a prod x y:1 1 0;1 1 1;:0
clear a same x:0 1 0;1 0 0;:0
clear b prod x y:1 1 0;1 1 1;:0
clear a sum x y:0 1 1;0 1 1;:0
clear a minus x y:0 1 1;0 1 1;:0
clear a fifth x:1 1 0;0 0 0;:0
clear a odd x:0 0 1;1 0 0;:0
clear a same spaced:0 1 0;1 0 0;:0
clear turned same y:0 0 1;1 1 1;:0
clear a3 auto x:1 0 0;0 0 1;:0
clear a3 turn x:1 0 0;0 1 0;:0
clear a still x:0 1 0;1 0 0;:0
clear a3 still x:0 1 0;1 0 0;:0
clear a consts x:1 1 0;0 0 0;:0
clear c third count:2 1;3 1;4 1;1 1;6 1;7 1;8 1;5 1;:0
clear d both four:4 0;3 0;2 0;1 0;:0
table a:m 7 n 6 p 2 d 3 slots 2;dim 0 generator 6 size 2 good;:0
table b:m 7 n 6 p 2 d 3 slots 2;dim 0 generator 6 size 2 good;chain 1 special 1 columns 1;height 1 weight 2;fresh 1086 switch 27 settle 54;limit 0 56;:0
table a3:m 7 n 6 p 2 d 3 slots 2;dim 0 generator 3 size 2 bad;:0
:stopped 0 Words;:2
clear:stopped 0 Words;:2
clear a:stopped 0 Words;:2
clear a prod:stopped 0 Words;:2
clear A prod x:stopped 0 Words;:2
clear a prod.prog x:stopped 0 Words;:2
clear a same x Y:stopped 0 Words;:2
Clear a same x:stopped 0 Words;:2
table:stopped 0 Words;:2
table a a:stopped 0 Words;:2
clear q prod x:stopped 0 NoFile q.table;:3
table q:stopped 0 NoFile q.table;:3
clear a q x:stopped 0 NoFile q.prog;:3
clear a prod x q:stopped 0 NoFile q.slots;:3
clear x x x:stopped 0 NoFile x.table;:3
clear weighted q x:stopped 0 BadTable Shape digits;:5
clear short same x:stopped 0 BadTable Shape generators;:5
clear eight same x:stopped 0 BadTable NotOrder;:5
clear twin same x:stopped 0 BadTable NotDistinct 1 3;:5
clear psi same x:stopped 0 BadTable TwoRoot 0;:5
clear longer same x:stopped 0 BadTable Shape factor;:5
clear broken same x:stopped 0 BadTable Text;:5
clear empty same x:stopped 0 BadTable Shape m;:5
clear a prod q:stopped 0 NoFile q.slots;:3
clear a prod x:stopped 0 Arity 1 2;:14
clear a same x y:stopped 0 Arity 2 1;:14
clear a twice x:stopped 0 BadProgram 2;:7
clear a later x:stopped 0 BadProgram 2;:7
clear a after x:stopped 0 BadProgram 3;:7
clear a double x:stopped 0 BadProgram 3;:7
clear a endless x:stopped 0 BadProgram 2;:7
clear a long x:stopped 0 BadProgram 2;:7
clear a empty x:stopped 0 BadProgram 1;:7
clear a same none:stopped 0 BadSlots 1;:6
clear a same two:stopped 0 BadSlots 1;:6
clear a same one:stopped 0 BadSlots 2;:6
clear a same three:stopped 0 BadSlots 3;:6
maketable:stopped 0 Words;:2
maketable mb:stopped 0 Words;:2
maketable mb made made:stopped 0 Words;:2
maketable mb Made:stopped 0 Words;:2
maketable q made:stopped 0 NoFile q.tmpl;:3
maketable nop made:stopped 0 BadTemplate p;:9
maketable nop b:stopped 0 BadTemplate p;:9
maketable broken made:stopped 0 BadTemplate text;:9
maketable empty made:stopped 0 BadTemplate m;:9
maketable even made:stopped 0 BadTemplate chain;:9
maketable full made:stopped 0 BadTemplate other;:9
maketable mb b:stopped 0 NameTaken b.table;:4
maketable rootless b:stopped 0 NameTaken b.table;:4
maketable rootless made:stopped 0 NoRoot 0;:12
maketable second made:stopped 0 NoRoot 1;:12
maketable eight made:stopped 0 BadTable NotOrder;:5
maketable equal made:stopped 0 BadTable Inverse 0 1;:5
maketable eight made|table made:stopped 0 BadTable NotOrder;stopped 0 NoFile made.table;:3
maketable ma made|table made:m 7 n 6 p 2 d 3 slots 2;dim 0 generator 6 size 2 good;chain 3 special 1 columns 3;height 1 weight 2;fresh 1086 switch 27 settle 54;limit 0 234881024;limit 1 3288334791*2^19;limit 2 3057123754*2^49;:0
maketable mb made|table made:m 7 n 6 p 2 d 3 slots 2;dim 0 generator 6 size 2 good;chain 1 special 1 columns 1;height 1 weight 2;fresh 1086 switch 27 settle 54;limit 0 56;:0
maketable mc made|table made:m 32 n 16 p 17 d 2 slots 8;dim 0 generator 31 size 2 good;dim 1 generator 5 size 4 bad;chain 2 special 1 columns 2;height 1 weight 4;fresh 57248 switch 720 settle 1440;limit 0 4026531840*2^19;limit 1 3523215360*2^72;:0
maketable md made|table made:m 24 n 8 p 5 d 2 slots 4;dim 0 generator 7 size 2 good;dim 1 generator 13 size 2 good;chain 2 special 1 columns 2;height 1 weight 2;fresh 4416 switch 72 settle 144;limit 0 3623878656*2^19;limit 1 3397386240*2^71;:0
maketable ma made|clear made prod x y|clear made same x:1 1 0;1 1 1;0 1 0;1 0 0;:0
maketable mb made|clear made prod x y:1 1 0;1 1 1;:0
maketable mc made|clear made third count:2 1;3 1;4 1;1 1;6 1;7 1;8 1;5 1;:0
maketable md made|clear made both four:4 0;3 0;2 0;1 0;:0
maketable ma made|maketable mb made|clear made same x:stopped 0 NameTaken made.table;0 1 0;1 0 0;:0
clear abcdefghijklmnopqrstuvwxyz0123456789_abcdefghijklmnopqrstuvwxyz0 same x:stopped 0 NoFile abcdefghijklmnopqrstuvwxyz0123456789_abcdefghijklmnopqrstuvwxyz0.table;:3
clear a same abcdefghijklmnopqrstuvwxyz0123456789_abcdefghijklmnopqrstuvwxyz0:stopped 0 NoFile abcdefghijklmnopqrstuvwxyz0123456789_abcdefghijklmnopqrstuvwxyz0.slots;:3
clear abcdefghijklmnopqrstuvwxyz0123456789_abcdefghijklmnopqrstuvwxyz01 same x:stopped 0 Words;:2
table abcdefghijklmnopqrstuvwxyz0123456789_abcdefghijklmnopqrstuvwxyz01:stopped 0 Words;:2
clear a zero x:0 1 0;1 0 0;:0
clear a3 zero x:0 1 0;1 0 0;:0
clear a twenty x:1 0 0;0 1 0;:0
clear d right four:3 0;4 0;1 0;2 0;:0
clear d up four:2 0;1 0;4 0;3 0;:0
clear c turned count:2 1;3 1;4 1;1 16;6 1;7 1;8 1;5 16;:0";

/// The files of the shelf.
pub fn files() -> &'static str {
    FILES
}

/// The cases.
fn rows() -> &'static str {
    ROWS
}

#[test]
fn plain_lines(rt: HostRuntime) -> Result<(), Fail> {
    check_rows(&rt, files(), rows())
}
