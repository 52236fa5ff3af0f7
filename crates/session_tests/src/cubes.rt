//! Plain tables with good and bad dimensions, and small, large and composite p: each runs a program of all instructions on two
//! arrays; and arrays that are damaged.
use crate::runs::check_rows;
use std::test::Fail;

/// The files of the shelf.
static FILES: &str = "\
t15.table:m=15;p=2;factor=[1,0,0,1,1];dual=[[1,1,0,0],[1,0,1,1],[0,1,0,1],[0,1,1,0]];generators=[[7,2]];
t15.prog:input x;input y;const c 2*1,1,0,1;a = mul x y;b = addc a c;d = sub b x;e = mulc d c;f = neg e;g = auto 11 f;h = add g y;r0 = rotate 0 1 h;output r0;
t15x.slots:0 0 0 1;1 0 1 0;
t15y.slots:0 0 0 1;1 0 1 0;
t31.table:m=31;p=2;factor=[1,0,0,1,0,1];dual=[[1,0,0,0,0],[0,0,1,0,1],[0,1,0,1,0],[0,0,1,0,0],[0,1,0,0,0]];generators=[[3,6]];
t31.prog:input x;input y;const c 6*0,0,1,0,0;a = mul x y;b = addc a c;d = sub b x;e = mulc d c;f = neg e;g = auto 26 f;h = add g y;r0 = rotate 0 1 h;output r0;
t31x.slots:0 0 0 0 0;1 1 0 0 0;0 1 1 0 1;1 0 0 1 0;1 1 0 1 0;1 1 1 1 1;
t31y.slots:0 1 1 0 0;1 0 1 1 0;1 1 1 0 1;0 0 0 0 0;1 1 1 1 1;0 1 1 0 1;
t105.table:m=105;p=2;factor=[1,0,0,0,1,0,1,1,0,1,1,0,1];dual=[[1,1,0,0,1,0,1,1,0,1,0,0],[1,0,0,0,0,0,0,0,0,1,0,1],[0,0,0,1,0,1,1,0,0,1,1,1],[0,0,1,0,1,1,0,0,1,1,1,0],[1,0,0,1,0,0,1,0,1,0,0,0],[0,0,1,1,0,0,1,1,1,1,0,1],[1,0,1,0,1,1,0,0,1,1,1,0],[1,0,0,0,0,1,0,0,0,1,0,1],[0,0,0,1,1,1,1,0,0,1,1,1],[1,1,1,1,0,1,1,1,1,0,1,0],[0,0,1,1,0,0,1,0,1,1,0,1],[0,1,1,0,0,1,0,1,1,0,1,0]];generators=[[11,2],[13,2]];
t105.prog:input x;input y;const c 4*0,1,1,0,1,1,0,1,1,1,0,0;a = mul x y;b = addc a c;d = sub b x;e = mulc d c;f = neg e;g = auto 16 f;h = add g y;r0 = rotate 0 3 h;r1 = rotate 1 1 r0;output r1;
t105x.slots:1 1 0 0 0 1 0 0 1 1 1 1;0 0 0 1 1 0 0 0 1 0 0 1;1 0 0 1 1 0 1 0 1 1 1 1;1 1 1 1 0 0 1 0 1 1 0 0;
t105y.slots:1 1 1 0 1 0 1 1 1 1 1 1;1 0 0 1 1 1 1 1 1 1 1 1;1 1 1 0 1 1 1 0 0 0 1 1;1 0 1 0 1 1 1 0 0 0 1 0;
t63.table:m=63;p=2;factor=[1,0,0,0,0,1,1];dual=[[1,1,0,0,0,0],[1,0,0,0,1,1],[0,0,0,1,0,1],[0,0,1,0,1,0],[0,1,0,1,0,0],[0,1,1,0,0,0]];generators=[[5,6]];
t63.prog:input x;input y;const c 6*1,1,1,1,0,1;a = mul x y;b = addc a c;d = sub b x;e = mulc d c;f = neg e;g = auto 4 f;h = add g y;r0 = rotate 0 1 h;output r0;
t63x.slots:0 1 0 1 0 0;1 0 1 1 0 1;0 0 1 1 0 1;1 1 1 0 0 0;1 1 1 1 0 1;1 1 0 0 0 1;
t63y.slots:1 0 0 0 1 1;1 1 1 1 0 1;1 0 1 0 1 1;1 1 0 0 1 1;1 0 1 0 0 0;1 0 0 0 1 1;
t9.table:m=9;p=131071;factor=[21906,0,0,1];dual=[[87381,0,0],[0,0,50992],[0,50992,0]];generators=[[2,2]];
t9.prog:input x;input y;const c 2*130853,53118,91913;a = mul x y;b = addc a c;d = sub b x;e = mulc d c;f = neg e;g = auto 2 f;h = add g y;r0 = rotate 0 2 h;output r0;
t9x.slots:6408 16171 110370;16037 28735 80551;
t9y.slots:84638 108049 124812;14569 93381 117289;
t7.table:m=7;p=1247;factor=[1077,1];dual=[[1]];generators=[[3,6]];
t7.prog:input x;input y;const c 6*599;a = mul x y;b = addc a c;d = sub b x;e = mulc d c;f = neg e;g = auto 3 f;h = add g y;r0 = rotate 0 6 h;output r0;
t7x.slots:896;306;374;379;847;330;
t7y.slots:137;436;89;1137;221;776;
t3.table:m=3;p=110;factor=[1,1,1];dual=[[37,73],[73,36]];generators=[];
t3.prog:input x;input y;const c 1*35,7;a = mul x y;b = addc a c;d = sub b x;e = mulc d c;f = neg e;g = auto 2 f;h = add g y;output h;
t3x.slots:73 73;
t3y.slots:15 95;
t41.table:m=41;p=2;factor=[1,0,1,1,1,1,1,0,0,1,1,1,0,0,1,1,1,1,1,0,1];dual=[[1,1,1,0,1,0,0,0,0,1,1,1,0,0,1,0,0,1,0,0],[1,0,1,0,1,1,0,0,0,0,0,0,0,0,1,1,0,1,0,1],[1,1,0,0,1,1,0,0,1,0,0,1,0,0,1,1,0,0,1,1],[0,0,0,0,1,1,0,1,1,0,1,1,0,0,1,1,1,1,1,1],[1,1,1,1,0,0,1,1,0,0,0,1,0,1,0,1,1,0,1,0],[0,1,1,1,0,0,1,0,1,0,1,1,1,1,1,0,1,1,0,1],[0,0,0,0,1,1,0,1,0,0,0,0,1,1,1,1,1,1,1,0],[0,0,0,1,1,0,1,0,0,0,0,1,1,1,1,1,1,1,0,0],[0,0,1,1,0,1,0,0,0,0,1,1,1,1,1,1,1,0,0,0],[1,0,0,0,0,0,0,0,0,0,0,0,1,1,0,1,0,1,0,0],[1,0,0,1,0,1,0,0,1,0,0,0,1,1,1,1,0,0,0,1],[1,0,1,1,1,1,0,1,1,0,0,0,1,0,1,1,1,0,1,1],[0,0,0,0,0,1,1,1,1,1,1,1,0,0,0,0,1,0,1,1],[0,0,0,0,1,1,1,1,1,1,1,0,0,0,0,1,0,1,1,0],[1,1,1,1,0,1,1,1,1,0,1,1,0,0,0,0,1,0,0,0],[0,1,1,1,1,0,1,1,1,1,1,1,0,1,0,0,1,0,0,1],[0,0,0,1,1,1,1,1,1,0,0,1,1,0,1,1,0,1,1,0],[1,1,0,1,0,1,1,1,0,1,0,0,0,1,0,0,1,0,0,0],[0,0,1,1,1,0,1,0,0,0,0,1,1,1,0,0,1,0,0,1],[0,1,1,1,0,1,0,0,0,0,1,1,1,0,0,1,0,0,1,0]];generators=[[3,2]];
t41.prog:input x;input y;const c 2*1,0,0,1,1,1,0,0,0,1,0,0,0,0,1,0,1,1,1,1;a = mul x y;b = addc a c;d = sub b x;e = mulc d c;f = neg e;g = auto 18 f;h = add g y;r0 = rotate 0 1 h;output r0;
t41x.slots:0 1 0 0 1 0 0 0 1 0 0 1 1 0 1 1 1 1 1 0;1 1 1 1 0 0 0 1 0 0 0 0 0 0 0 0 1 1 1 0;
t41y.slots:1 1 1 1 1 1 1 0 0 0 0 0 1 1 1 0 1 0 1 0;1 0 0 1 0 1 1 1 0 0 1 1 0 0 1 1 1 0 0 0;
t56.table:m=56;p=3;factor=[2,0,1,1,2,0,1];dual=[[1,1,1,1,1,1],[1,2,2,0,1,1],[1,2,0,2,0,0],[1,0,2,1,2,0],[1,1,0,2,1,2],[1,1,0,0,2,1]];generators=[[5,2],[11,2]];
t56.prog:input x;input y;const c 4*2,0,2,0,2,0;a = mul x y;b = addc a c;d = sub b x;e = mulc d c;f = neg e;g = auto 17 f;h = add g y;r0 = rotate 0 3 h;r1 = rotate 1 2 r0;output r1;
t56x.slots:2 1 2 1 0 1;1 1 0 2 2 1;0 0 0 2 0 0;2 2 1 2 1 0;
t56y.slots:1 0 1 2 1 0;0 0 2 2 2 1;0 2 0 0 1 0;1 0 2 0 2 0;
t5.table:m=5;p=65537;factor=[1,1,1,1,1];dual=[[26215,39322,0,0],[39322,13107,39322,39322],[0,39322,0,26215],[0,39322,26215,0]];generators=[];
t5.prog:input x;input y;const c 1*52077,7882,6278,33479;a = mul x y;b = addc a c;d = sub b x;e = mulc d c;f = neg e;g = auto 3 f;h = add g y;output h;
t5x.slots:53408 58441 40101 6729;
t5y.slots:4928 25493 23512 52737;
t64.table:m=64;p=17;factor=[3,0,0,0,1];dual=[[13,0,0,0],[0,0,0,7],[0,0,7,0],[0,7,0,0]];generators=[[63,2],[5,4]];
t64.prog:input x;input y;const c 8*14,11,8,4;a = mul x y;b = addc a c;d = sub b x;e = mulc d c;f = neg e;g = auto 7 f;h = add g y;r0 = rotate 0 1 h;r1 = rotate 1 2 r0;output r1;
t64x.slots:5 0 10 16;14 2 10 1;12 5 14 13;5 5 7 1;3 4 16 2;12 3 9 6;7 13 2 8;6 12 8 10;
t64y.slots:1 6 0 13;1 12 15 4;0 7 13 3;0 3 6 6;10 0 2 4;0 16 2 15;6 13 2 12;6 2 4 5;
t60.table:m=60;p=61;factor=[2,1];dual=[[1]];generators=[[7,4],[11,2],[19,2]];
t60.prog:input x;input y;const c 16*60;a = mul x y;b = addc a c;d = sub b x;e = mulc d c;f = neg e;g = auto 7 f;h = add g y;r0 = rotate 0 1 h;r1 = rotate 1 2 r0;r2 = rotate 2 3 r1;output r2;
t60x.slots:38;46;2;3;17;35;43;38;54;9;47;17;47;36;2;7;
t60y.slots:55;45;25;60;57;15;10;39;32;2;47;23;54;43;33;37;
wide.table:m=65536;p=65537;factor=[1,1];dual=[[1]];generators=[[1,65536],[1,65536],[1,65536],[1,65536]];
further.table:m=5;p=11;factor=[2,1];dual=[[1]];generators=[[2,4]];name=1;
five.table:m=5;p=11;factor=[8,1];dual=[[1]];generators=[[2,4]];
same.prog:input x;output x;
long.slots:1;00000000000000000002;000000000000000000003;4;
signed.slots:1;+2;3;4;
more.slots:1;2;3;4;11;
tab.slots:1;2\t;3;4;";

/// The cases.
static ROWS: &str = "\
clear t15 t15 t15x t15y:1 1 0 1;1 0 1 1;:0
clear t31 t31 t31x t31y:1 0 1 1 0;0 0 0 1 0;1 0 0 1 0;1 1 1 1 1;1 0 0 0 0;0 0 0 0 0;:0
clear t105 t105 t105x t105y:1 1 0 1 0 0 0 0 1 0 1 0;0 1 1 0 0 0 1 0 1 1 1 1;0 1 0 1 0 0 1 0 1 1 0 1;1 1 1 1 0 0 1 1 1 1 1 0;:0
clear t63 t63 t63x t63y:0 1 0 0 1 0;0 0 0 1 1 0;1 0 0 1 1 0;0 0 1 1 1 0;1 1 1 1 0 0;1 1 1 1 1 0;:0
clear t9 t9 t9x t9y:126287 50747 21030;89814 11865 91808;:0
clear t7 t7 t7x t7y:762;306;379;288;256;18;:0
clear t3 t3 t3x t3y:84 81;:0
clear t41 t41 t41x t41y:1 0 0 1 1 1 0 1 1 0 1 1 0 0 0 0 1 1 0 0;1 1 1 0 0 0 0 1 0 1 0 1 0 0 1 0 1 0 1 0;:0
clear t56 t56 t56x t56y:2 1 0 1 2 0;0 2 1 0 0 1;2 0 0 1 0 2;2 2 1 0 2 1;:0
clear t5 t5 t5x t5y:56685 53577 51222 51600;:0
clear t64 t64 t64x t64y:7 13 0 16;1 3 1 12;0 14 4 6;11 9 10 8;12 2 7 8;14 9 8 11;12 10 16 0;13 11 14 10;:0
clear t60 t60 t60x t60y:53;31;30;19;46;30;39;45;23;22;46;36;49;21;30;49;:0
clear wide same long:stopped 0 BadTable WrongCount;:5
clear further same long:stopped 0 BadTable Shape other;:5
clear five same long:stopped 0 BadSlots 3;:6
clear five same signed:stopped 0 BadSlots 2;:6
clear five same more:stopped 0 BadSlots 5;:6
clear five same tab:stopped 0 BadSlots 2;:6";

/// The files of the shelf.
fn files() -> &'static str {
    FILES
}

/// The cases.
fn rows() -> &'static str {
    ROWS
}

#[test]
fn tables_of_many_forms(rt: HostRuntime) -> Result<(), Fail> {
    check_rows(&rt, files(), rows())
}
