//! Plain tables of one to three dimensions, good and bad, with degrees from 1 to 12, and small, large and composite p: their
//! summaries, and a program of all instructions on two arrays.
use crate::runs::check_rows;
use std::test::Fail;

/// The files of the shelf.
static FILES: &str = "\
u15.table:m=15;p=1891;factor=[1530,1];dual=[[1]];generators=[[14,2],[13,4]];
u15.prog:input x;input y;const c 8*663;a = mul x y;b = addc a c;d = sub b x;e = mulc d c;f = neg e;g = auto 4 f;h = add g y;r0 = rotate 0 2 h;r1 = rotate 1 1 r0;output r1;
u15x.slots:148;1681;1097;192;748;1193;118;1863;
u15y.slots:1039;439;76;176;888;856;143;492;
u24.table:m=24;p=131071;factor=[21905,56234,1];dual=[[0,28373],[28373,21906]];generators=[[13,2],[23,2]];
u24.prog:input x;input y;const c 4*11889,72226;a = mul x y;b = addc a c;d = sub b x;e = mulc d c;f = neg e;g = auto 13 f;h = add g y;r0 = rotate 0 1 h;r1 = rotate 1 1 r0;output r1;
u24x.slots:124184 29260;82657 82238;76414 124218;8108 75642;
u24y.slots:76748 51993;6499 127959;28977 6105;72963 112521;
v24.table:m=24;p=17143;factor=[8871,6183,1];dual=[[0,16131],[16131,8872]];generators=[[13,2],[23,2]];
v24.prog:input x;input y;const c 4*4363,9489;a = mul x y;b = addc a c;d = sub b x;e = mulc d c;f = neg e;g = auto 13 f;h = add g y;r0 = rotate 0 1 h;r1 = rotate 1 1 r0;output r1;
v24x.slots:10108 5922;3376 6156;12202 3192;2057 1953;
v24y.slots:6748 16266;14011 10293;15256 14849;11848 9822;
u31.table:m=31;p=2;factor=[1,0,1,1,1,1];dual=[[1,1,1,1,1],[1,0,0,0,1],[1,0,0,1,0],[1,0,1,0,0],[1,1,0,0,0]];generators=[[30,2],[18,3]];
u31.prog:input x;input y;const c 6*0,0,0,0,1;a = mul x y;b = addc a c;d = sub b x;e = mulc d c;f = neg e;g = auto 18 f;h = add g y;r0 = rotate 0 2 h;r1 = rotate 1 2 r0;output r1;
u31x.slots:1 1 0 0 1;0 1 0 1 1;0 0 1 1 1;1 1 0 0 1;1 0 0 1 1;1 1 1 0 1;
u31y.slots:1 0 0 1 0;0 1 0 0 1;1 1 0 0 1;1 1 0 1 1;1 1 1 0 0;0 0 0 0 0;
u40.table:m=40;p=3;factor=[1,0,1,1,1];dual=[[0,1,0,1],[1,0,1,0],[0,1,2,0],[1,0,0,1]];generators=[[31,2],[33,2]];
u40.prog:input x;input y;const c 4*0,1,2,0;a = mul x y;b = addc a c;d = sub b x;e = mulc d c;f = neg e;g = auto 13 f;h = add g y;r0 = rotate 0 2 h;r1 = rotate 1 1 r0;output r1;
u40x.slots:0 1 2 1;2 2 1 0;2 2 2 2;2 2 0 1;
u40y.slots:2 2 1 1;1 1 0 1;2 1 0 0;0 0 1 0;
u51.table:m=51;p=2;factor=[1,1,0,0,1,1,1,1,1];dual=[[1,0,0,0,1,1,0,0],[0,0,0,0,1,0,1,1],[0,0,0,1,0,1,1,0],[0,0,1,0,1,1,0,0],[1,1,0,1,0,1,0,0],[1,0,1,1,1,0,1,1],[0,1,1,0,0,1,0,1],[0,1,0,0,0,1,1,0]];generators=[[40,4]];
u51.prog:input x;input y;const c 4*0,1,0,0,0,0,0,1;a = mul x y;b = addc a c;d = sub b x;e = mulc d c;f = neg e;g = auto 32 f;h = add g y;r0 = rotate 0 1 h;output r0;
u51x.slots:0 0 1 0 1 1 1 1;0 0 1 1 1 1 1 0;0 0 1 1 1 0 0 0;1 0 0 1 0 1 1 0;
u51y.slots:1 0 1 0 0 0 1 0;0 1 1 0 0 1 1 1;0 1 1 1 1 0 0 0;0 1 0 1 0 1 0 1;
u63.table:m=63;p=2;factor=[1,0,1,1,0,1,1];dual=[[1,0,1,0,1,1],[0,0,1,1,0,1],[1,1,0,0,0,1],[0,1,0,0,1,0],[1,0,0,1,0,0],[1,1,1,0,0,0]];generators=[[53,3],[62,2]];
u63.prog:input x;input y;const c 6*1,0,0,1,0,1;a = mul x y;b = addc a c;d = sub b x;e = mulc d c;f = neg e;g = auto 22 f;h = add g y;r0 = rotate 0 2 h;r1 = rotate 1 2 r0;output r1;
u63x.slots:0 1 1 1 0 0;0 0 0 0 1 0;1 1 0 0 0 0;0 0 1 0 0 0;1 0 1 0 1 1;1 0 0 1 1 1;
u63y.slots:0 0 0 1 0 0;0 0 0 1 0 0;1 1 0 0 0 0;1 0 0 1 0 0;1 1 0 1 1 1;0 1 0 1 0 1;
u85.table:m=85;p=2;factor=[1,0,0,1,1,1,1,1,1];dual=[[1,1,0,0,0,0,0,0],[1,0,1,1,1,1,1,1],[0,1,0,0,0,0,0,1],[0,1,0,0,0,0,1,0],[0,1,0,0,0,1,0,0],[0,1,0,0,1,0,0,0],[0,1,0,1,0,0,0,0],[0,1,1,0,0,0,0,0]];generators=[[7,8]];
u85.prog:input x;input y;const c 8*0,1,1,1,0,0,1,0;a = mul x y;b = addc a c;d = sub b x;e = mulc d c;f = neg e;g = auto 19 f;h = add g y;r0 = rotate 0 5 h;output r0;
u85x.slots:0 0 1 0 1 0 1 0;0 1 1 0 0 0 1 1;1 1 0 1 1 0 1 0;1 1 1 0 1 1 1 0;0 0 0 0 1 1 0 0;1 0 1 1 1 0 1 1;0 1 0 0 1 0 1 0;0 1 0 0 0 1 0 1;
u85y.slots:0 1 1 1 0 0 0 0;0 1 0 0 0 1 1 0;1 1 0 1 1 0 1 0;0 0 0 1 0 1 0 1;1 1 1 0 0 1 0 0;1 1 0 0 0 0 1 1;0 0 0 1 1 0 1 0;1 0 0 1 1 0 1 1;
u93.table:m=93;p=2;factor=[1,0,1,0,0,0,0,1,0,1,1];dual=[[1,0,1,0,1,1,1,0,1,1],[0,0,0,1,1,1,1,1,0,1],[1,0,0,1,0,0,0,0,0,1],[0,1,1,0,0,0,1,0,0,1],[1,1,0,0,0,1,0,0,1,0],[1,1,0,0,1,0,1,1,1,1],[1,1,0,1,0,1,0,1,0,1],[0,1,0,0,0,1,1,0,1,0],[1,0,0,0,1,1,0,1,0,0],[1,1,1,1,0,1,1,0,0,0]];generators=[[85,2],[67,3]];
u93.prog:input x;input y;const c 6*1,1,0,0,1,0,1,0,0,1;a = mul x y;b = addc a c;d = sub b x;e = mulc d c;f = neg e;g = auto 40 f;h = add g y;r0 = rotate 0 1 h;r1 = rotate 1 2 r0;output r1;
u93x.slots:1 0 0 0 0 1 0 0 1 0;1 0 1 1 0 0 0 1 1 1;0 1 0 0 1 0 0 0 0 0;0 0 1 0 1 1 0 0 0 1;1 0 1 0 0 0 1 1 0 1;0 0 0 1 1 1 0 1 1 0;
u93y.slots:0 0 0 1 1 1 0 0 1 0;1 1 0 0 1 1 1 1 1 1;0 0 1 0 1 0 1 1 0 1;1 1 0 0 0 0 0 1 1 0;1 0 1 0 1 1 1 0 0 0;1 1 1 1 0 1 1 1 1 0;
w13.table:m=13;p=9;factor=[8,3,7,1];dual=[[2,2,0],[2,8,2],[0,2,2]];generators=[[7,4]];
w13.prog:input x;input y;const c 4*5,0,5;a = mul x y;b = addc a c;d = sub b x;e = mulc d c;f = neg e;g = auto 7 f;h = add g y;r0 = rotate 0 4 h;output r0;
w13x.slots:1 3 0;4 4 5;1 6 6;1 5 6;
w13y.slots:4 0 4;1 0 4;2 3 4;6 8 5;
u105.table:m=105;p=2;factor=[1,0,0,1,0,0,0,1,1,1,0,1,1];dual=[[1,0,0,1,0,1,1,0,0,1,1,1],[0,0,0,0,1,1,1,1,0,1,0,1],[0,0,0,1,1,1,1,0,1,0,1,0],[1,0,1,0,1,0,1,1,0,0,1,1],[0,1,1,1,0,1,0,1,1,1,0,1],[1,1,1,0,1,0,1,1,1,0,1,0],[1,1,1,1,0,1,0,0,1,1,1,1],[0,1,0,1,1,1,0,0,0,0,1,0],[0,0,1,0,1,1,1,0,0,0,1,1],[1,1,0,0,1,0,1,0,0,0,0,1],[1,0,1,1,0,1,1,1,1,0,0,1],[1,1,0,1,1,0,1,0,1,1,1,0]];generators=[[68,2],[58,2]];
u105.prog:input x;input y;const c 4*0,1,1,0,1,0,0,0,1,1,0,1;a = mul x y;b = addc a c;d = sub b x;e = mulc d c;f = neg e;g = auto 71 f;h = add g y;r0 = rotate 0 1 h;r1 = rotate 1 1 r0;output r1;
u105x.slots:0 1 1 1 1 1 1 1 1 0 1 1;1 0 0 0 0 0 1 0 1 1 1 1;0 0 0 0 0 1 0 1 0 1 1 0;0 1 1 1 0 1 1 1 0 1 1 1;
u105y.slots:0 0 0 1 0 1 1 1 1 1 0 0;0 1 1 1 0 0 1 1 1 0 0 0;0 0 0 1 0 0 0 0 0 0 1 0;1 1 0 0 0 1 0 1 1 0 0 0;
u117.table:m=117;p=2;factor=[1,0,0,0,0,1,1,1,1,1,1,1,1];dual=[[1,1,0,0,0,0,0,0,0,0,0,0],[1,0,0,0,1,1,1,1,1,1,1,1],[0,0,0,1,0,0,0,0,0,0,0,1],[0,0,1,0,0,0,0,0,0,0,1,0],[0,1,0,0,0,0,0,0,0,1,0,0],[0,1,0,0,0,0,0,0,1,0,0,0],[0,1,0,0,0,0,0,1,0,0,0,0],[0,1,0,0,0,0,1,0,0,0,0,0],[0,1,0,0,0,1,0,0,0,0,0,0],[0,1,0,0,1,0,0,0,0,0,0,0],[0,1,0,1,0,0,0,0,0,0,0,0],[0,1,1,0,0,0,0,0,0,0,0,0]];generators=[[20,3],[53,2]];
u117.prog:input x;input y;const c 6*1,1,1,1,0,1,0,0,0,1,1,0;a = mul x y;b = addc a c;d = sub b x;e = mulc d c;f = neg e;g = auto 5 f;h = add g y;r0 = rotate 0 1 h;r1 = rotate 1 2 r0;output r1;
u117x.slots:1 0 1 0 1 1 0 1 0 1 1 1;1 0 0 1 0 0 1 0 1 0 0 1;0 1 1 0 1 0 0 1 1 0 0 1;0 0 0 0 1 0 0 0 1 1 1 0;0 0 1 0 0 1 0 1 1 1 1 1;0 0 0 0 1 0 1 1 0 0 1 1;
u117y.slots:1 1 0 0 1 0 1 1 0 1 1 1;0 1 0 1 0 1 0 1 0 0 1 0;0 1 1 1 1 0 1 1 1 1 0 0;0 0 0 1 1 1 1 1 1 0 1 0;0 1 0 0 1 1 1 1 0 0 1 0;0 1 0 0 1 1 0 1 0 0 1 0;
u120.table:m=120;p=7;factor=[2,1,3,6,1];dual=[[5,1,1,2],[1,1,5,2],[1,5,4,6],[2,2,6,2]];generators=[[91,2],[101,2],[11,2]];
u120.prog:input x;input y;const c 8*1,0,3,3;a = mul x y;b = addc a c;d = sub b x;e = mulc d c;f = neg e;g = auto 89 f;h = add g y;r0 = rotate 0 2 h;r1 = rotate 1 1 r0;r2 = rotate 2 1 r1;output r2;
u120x.slots:1 3 3 4;5 1 5 4;6 6 5 6;0 6 6 2;2 2 4 2;2 2 5 2;1 3 1 1;1 1 1 2;
u120y.slots:4 1 2 0;3 2 1 4;4 1 5 6;0 5 3 0;0 0 3 6;1 6 3 2;0 2 1 0;0 1 4 6;
u80.table:m=80;p=3;factor=[2,0,0,1,1];dual=[[1,0,1,1],[0,1,2,1],[1,2,1,0],[1,1,0,0]];generators=[[13,2],[63,4]];
u80.prog:input x;input y;const c 8*2,0,0,1;a = mul x y;b = addc a c;d = sub b x;e = mulc d c;f = neg e;g = auto 43 f;h = add g y;r0 = rotate 0 1 h;r1 = rotate 1 4 r0;output r1;
u80x.slots:2 1 2 0;0 2 2 2;2 1 0 0;1 1 0 0;0 1 0 2;2 2 0 0;1 1 2 1;0 2 1 0;
u80y.slots:0 0 1 2;1 0 1 0;1 2 2 0;2 2 0 2;0 1 2 1;1 1 2 1;1 0 1 2;2 1 1 1;
u72.table:m=72;p=5;factor=[2,0,0,1,0,0,1];dual=[[3,0,0,4,0,0],[0,0,0,0,0,1],[0,0,0,0,1,0],[4,0,0,3,0,0],[0,0,1,0,0,3],[0,1,0,0,3,0]];generators=[[47,2],[37,2]];
u72.prog:input x;input y;const c 4*0,2,1,3,3,1;a = mul x y;b = addc a c;d = sub b x;e = mulc d c;f = neg e;g = auto 5 f;h = add g y;r0 = rotate 0 2 h;r1 = rotate 1 1 r0;output r1;
u72x.slots:3 0 0 3 4 2;3 1 1 0 0 4;1 3 0 4 4 2;4 1 1 2 2 1;
u72y.slots:4 1 0 0 3 3;1 2 1 0 3 2;0 4 3 0 4 1;1 4 3 4 1 3;
u16.table:m=16;p=17;factor=[3,1];dual=[[1]];generators=[[7,2],[5,4]];
u16.prog:input x;input y;const c 8*5;a = mul x y;b = addc a c;d = sub b x;e = mulc d c;f = neg e;g = auto 11 f;h = add g y;r0 = rotate 0 1 h;r1 = rotate 1 1 r0;output r1;
u16x.slots:12;16;5;12;11;3;4;7;
u16y.slots:6;1;1;10;3;12;14;9;";

/// The cases.
static ROWS: &str = "\
clear u15 u15 u15x u15y:1091;1534;653;1440;456;428;303;1009;:0
table u15:m 15 n 8 p 1891 d 1 slots 8;dim 0 generator 14 size 2 good;dim 1 generator 13 size 4 good;:0
clear u24 u24 u24x u24y:3064 77171;88987 50943;84820 112193;23753 17456;:0
table u24:m 24 n 8 p 131071 d 2 slots 4;dim 0 generator 13 size 2 good;dim 1 generator 23 size 2 good;:0
clear v24 v24 v24x v24y:7970 10547;16845 15278;14940 14403;9434 15964;:0
table v24:m 24 n 8 p 17143 d 2 slots 4;dim 0 generator 13 size 2 good;dim 1 generator 23 size 2 good;:0
clear u31 u31 u31x u31y:0 1 0 0 1;1 0 1 1 1;0 0 0 0 0;1 0 1 1 0;0 0 1 0 1;1 1 0 1 0;:0
table u31:m 31 n 30 p 2 d 5 slots 6;dim 0 generator 30 size 2 good;dim 1 generator 18 size 3 bad;:0
clear u40 u40 u40x u40y:2 1 2 2;1 1 0 0;2 2 2 2;2 1 1 2;:0
table u40:m 40 n 16 p 3 d 4 slots 4;dim 0 generator 31 size 2 good;dim 1 generator 33 size 2 bad;:0
clear u51 u51 u51x u51y:0 0 0 0 1 0 1 0;0 1 0 1 1 0 0 1;1 1 1 0 1 1 0 0;1 0 1 1 1 1 1 0;:0
table u51:m 51 n 32 p 2 d 8 slots 4;dim 0 generator 40 size 4 bad;:0
clear u63 u63 u63x u63y:1 0 1 0 1 0;0 1 0 1 1 1;1 1 0 1 1 0;0 1 0 1 1 0;0 1 1 0 1 1;1 0 0 1 0 1;:0
table u63:m 63 n 36 p 2 d 6 slots 6;dim 0 generator 53 size 3 bad;dim 1 generator 62 size 2 good;:0
clear u85 u85 u85x u85y:1 0 0 1 1 1 0 1;0 0 0 0 1 1 1 1;0 0 0 0 1 0 1 0;1 1 1 1 0 1 1 1;0 1 0 1 0 1 0 0;0 0 1 1 1 0 0 0;0 1 1 0 0 1 0 0;0 0 1 0 1 0 1 1;:0
table u85:m 85 n 64 p 2 d 8 slots 8;dim 0 generator 7 size 8 bad;:0
clear u93 u93 u93x u93y:1 0 0 1 1 1 1 1 0 0;1 1 1 0 1 0 1 1 0 0;0 1 1 1 1 1 1 0 1 1;1 1 0 0 0 0 0 0 1 1;1 0 1 0 0 0 1 0 1 0;0 0 0 0 1 1 0 1 0 1;:0
table u93:m 93 n 60 p 2 d 10 slots 6;dim 0 generator 85 size 2 bad;dim 1 generator 67 size 3 good;:0
clear w13 w13 w13x w13y:6 3 8;7 3 7;0 1 8;7 0 5;:0
table w13:m 13 n 12 p 9 d 3 slots 4;dim 0 generator 7 size 4 bad;:0
clear u105 u105 u105x u105y:0 0 1 1 1 1 1 0 0 1 1 0;1 0 1 1 1 0 0 1 0 0 0 0;0 1 1 0 1 0 1 1 0 0 1 0;0 0 1 1 0 0 1 1 0 1 0 0;:0
table u105:m 105 n 48 p 2 d 12 slots 4;dim 0 generator 68 size 2 bad;dim 1 generator 58 size 2 bad;:0
clear u117 u117 u117x u117y:1 0 0 0 1 1 0 1 0 1 1 1;1 1 1 1 1 0 1 1 0 1 1 1;0 1 1 0 0 1 0 0 0 1 1 1;1 1 0 0 1 1 1 0 1 1 1 1;1 0 1 0 0 0 0 1 1 0 1 1;1 0 1 0 0 0 0 1 1 1 0 1;:0
table u117:m 117 n 72 p 2 d 12 slots 6;dim 0 generator 20 size 3 bad;dim 1 generator 53 size 2 good;:0
clear u120 u120 u120x u120y:2 3 6 3;1 0 2 5;6 2 1 6;4 4 1 1;2 5 2 6;6 3 6 6;1 4 4 5;2 3 6 1;:0
table u120:m 120 n 32 p 7 d 4 slots 8;dim 0 generator 91 size 2 good;dim 1 generator 101 size 2 good;dim 2 generator 11 size 2 good;:0
clear u80 u80 u80x u80y:0 1 2 1;2 2 0 1;2 1 2 0;2 1 1 0;0 2 2 0;0 2 2 0;1 2 2 0;0 2 2 1;:0
table u80:m 80 n 32 p 3 d 4 slots 8;dim 0 generator 13 size 2 bad;dim 1 generator 63 size 4 good;:0
clear u72 u72 u72x u72y:4 2 2 2 0 3;4 2 2 4 4 3;0 3 3 4 2 4;1 1 4 1 4 2;:0
table u72:m 72 n 24 p 5 d 6 slots 4;dim 0 generator 47 size 2 bad;dim 1 generator 37 size 2 good;:0
clear u16 u16 u16x u16y:1;16;10;6;14;7;2;15;:0
table u16:m 16 n 8 p 17 d 1 slots 8;dim 0 generator 7 size 2 good;dim 1 generator 5 size 4 good;:0";

/// The files of the shelf.
fn files() -> &'static str {
    FILES
}

/// The cases.
fn rows() -> &'static str {
    ROWS
}

#[test]
fn grids_of_slots(rt: HostRuntime) -> Result<(), Fail> {
    check_rows(&rt, files(), rows())
}
