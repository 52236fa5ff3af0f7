//! The rings of the cases, each modulo two moduli of a chain and a special one.
ghost use Rattle.std.specs.Prelude.{◌≡◌, ◌<◌, ◌≤◌, IfOk, true, length};
ghost use Rattle.algebra.specs.Divisor.{UnitModulo};

use cyclo_poly::Cyclo;
use double_crt::{Dcrt, RingTables};
use moduli_table::{ModRow, Moduli};
use std::alloc::{AllocError, Global};
use std::process::Abort;
use std::rc::Rc;
use std::test::Fail;

/// What every ring is made for.
const P: u32 = 257;

/// The moduli of a ring, the special one last: a prime just below 2^62, a product of two primes, and a prime. Then two polynomials.
pub struct Ring {
    pub m: u32,
    pub degree: u32,
    pub height: u32,
    pub rows: [ModRow; 3],
    /// Of the first modulus modulo the second and the third, and of the second modulo the third.
    pub inverses: [u64; 3],
    /// The coefficients of two polynomials.
    pub a: &'static [i64],
    pub b: &'static [i64],
}

pub static RINGS: [Ring; 10] = [
    Ring {
        m: 3,
        degree: 2,
        height: 1,
        rows: [
            ModRow {
                q: 4611686018427387817,
                zeta: 3486986581154630478,
                psi: 967200838763692757,
                plain_inverse: 177,
            },
            ModRow {
                q: 1098725331217,
                zeta: 902959232596,
                psi: 539311684324,
                plain_inverse: 151,
            },
            ModRow {
                q: 35184372088777,
                zeta: 1274677030002,
                psi: 23115446840189,
                plain_inverse: 192,
            },
        ],
        inverses: [654875558497, 790351849703, 11761485120816],
        a: &[0, 118101358],
        b: &[-1, 228863879],
    },
    Ring {
        m: 5,
        degree: 4,
        height: 1,
        rows: [
            ModRow {
                q: 4611686018427387761,
                zeta: 906461314826791029,
                psi: 2404667527499009113,
                plain_inverse: 36,
            },
            ModRow {
                q: 1097383970321,
                zeta: 233215379021,
                psi: 903831361275,
                plain_inverse: 243,
            },
            ModRow {
                q: 35184372088321,
                zeta: 10052969407490,
                psi: 15918343363348,
                plain_inverse: 62,
            },
        ],
        inverses: [762455727314, 18536700801158, 28629834671907],
        a: &[250300378, 160137216, 0, 54151878],
        b: &[-1, -76372133, 255858963, -136825564],
    },
    Ring {
        m: 7,
        degree: 6,
        height: 1,
        rows: [
            ModRow {
                q: 4611686018427387761,
                zeta: 2342795665733534974,
                psi: 2404667527499009113,
                plain_inverse: 36,
            },
            ModRow {
                q: 1098389784017,
                zeta: 1064104201345,
                psi: 640565721185,
                plain_inverse: 175,
            },
            ModRow {
                q: 35184372088321,
                zeta: 19900199548118,
                psi: 15918343363348,
                plain_inverse: 62,
            },
        ],
        inverses: [217633964859, 18536700801158, 27486274638728],
        a: &[-233837509, -81565330, 65811942, 0, -27130865, -207365048],
        b: &[-1, -211048899, 210832050, 35824995, -233340127, -231789060],
    },
    Ring {
        m: 8,
        degree: 4,
        height: 1,
        rows: [
            ModRow {
                q: 4611686018427387761,
                zeta: 2404667527499009113,
                psi: 2404667527499009113,
                plain_inverse: 36,
            },
            ModRow {
                q: 1099044006209,
                zeta: 439574824487,
                psi: 439574824487,
                plain_inverse: 217,
            },
            ModRow {
                q: 35184372088673,
                zeta: 26197903862334,
                psi: 26197903862334,
                plain_inverse: 74,
            },
        ],
        inverses: [800372946486, 10456583258510, 7676359377692],
        a: &[209488015, 96954202, 0, -158424223],
        b: &[-1, -116310336, -147481422, 101766938],
    },
    Ring {
        m: 9,
        degree: 6,
        height: 1,
        rows: [
            ModRow {
                q: 4611686018427387073,
                zeta: 1945385712938216649,
                psi: 2158964906975715198,
                plain_inverse: 143,
            },
            ModRow {
                q: 1092946801537,
                zeta: 736016449232,
                psi: 556715216916,
                plain_inverse: 147,
            },
            ModRow {
                q: 35184372088321,
                zeta: 30257520096840,
                psi: 28590078663428,
                plain_inverse: 62,
            },
        ],
        inverses: [25692533908, 14891058577656, 17689154791194],
        a: &[-74955317, -255655510, 254865792, 0, 245309225, -88645520],
        b: &[-1, -38591235, 26771310, -173883665, -234496615, -50146567],
    },
    Ring {
        m: 12,
        degree: 4,
        height: 1,
        rows: [
            ModRow {
                q: 4611686018427387073,
                zeta: 661952198207384224,
                psi: 2158964906975715198,
                plain_inverse: 143,
            },
            ModRow {
                q: 1098272539489,
                zeta: 30032002203,
                psi: 671737773867,
                plain_inverse: 160,
            },
            ModRow {
                q: 35184372088321,
                zeta: 17718070585618,
                psi: 28590078663428,
                plain_inverse: 62,
            },
        ],
        inverses: [826418828024, 14891058577656, 20098573005926],
        a: &[95000409, -98294215, 0, 164745983],
        b: &[-1, -236458880, 101331900, 6862262],
    },
    Ring {
        m: 15,
        degree: 8,
        height: 1,
        rows: [
            ModRow {
                q: 4611686018427379201,
                zeta: 2844528659835145356,
                psi: 2084329982290555090,
                plain_inverse: 62,
            },
            ModRow {
                q: 1093444088161,
                zeta: 867156504275,
                psi: 980816290114,
                plain_inverse: 218,
            },
            ModRow {
                q: 35184372088321,
                zeta: 3282357372585,
                psi: 28590078663428,
                plain_inverse: 62,
            },
        ],
        inverses: [565278706404, 5409140423501, 8786232825033],
        a: &[
            -157023790, 54702821, 254054306, 162644188, 0, 200178609, 60707555, 244938151,
        ],
        b: &[
            -1, -150569879, 174206895, 263681192, 173261692, 85991015, -20460671, -19450903,
        ],
    },
    Ring {
        m: 16,
        degree: 8,
        height: 1,
        rows: [
            ModRow {
                q: 4611686018427387617,
                zeta: 3981429811386809483,
                psi: 3981429811386809483,
                plain_inverse: 41,
            },
            ModRow {
                q: 1098641480897,
                zeta: 1090635106265,
                psi: 1090635106265,
                plain_inverse: 158,
            },
            ModRow {
                q: 35184372088673,
                zeta: 5933058726904,
                psi: 5933058726904,
                plain_inverse: 74,
            },
        ],
        inverses: [1087888475715, 7374818713834, 12788316428882],
        a: &[
            123301458, 150806667, 105975288, -84893804, 0, 105814615, 260757189, -230879497,
        ],
        b: &[
            -1, 244088921, 156205693, -84419815, 267672882, -74825633, -157800578, 19067811,
        ],
    },
    Ring {
        m: 30,
        degree: 8,
        height: 1,
        rows: [
            ModRow {
                q: 4611686018427379201,
                zeta: 2348341212131350192,
                psi: 936728174384108237,
                plain_inverse: 62,
            },
            ModRow {
                q: 1084928956801,
                zeta: 989280979576,
                psi: 896145071582,
                plain_inverse: 80,
            },
            ModRow {
                q: 35184372088321,
                zeta: 2501265663562,
                psi: 11372052216411,
                plain_inverse: 62,
            },
        ],
        inverses: [964076952890, 5409140423501, 6599317238853],
        a: &[
            -208880269, 188720862, -99919831, -65891496, 0, 155195189, -192642683, 213429897,
        ],
        b: &[
            -1, -66158346, -262446666, -109914052, -93062717, -254810887, 54430926, 122295135,
        ],
    },
    Ring {
        m: 105,
        degree: 48,
        height: 2,
        rows: [
            ModRow {
                q: 4611686018427156481,
                zeta: 1115456617881659937,
                psi: 343584886067373623,
                plain_inverse: 246,
            },
            ModRow {
                q: 1015885382401,
                zeta: 985479293084,
                psi: 968272949224,
                plain_inverse: 199,
            },
            ModRow {
                q: 35184372088321,
                zeta: 32643466707075,
                psi: 28628801370306,
                plain_inverse: 62,
            },
        ],
        inverses: [886323164461, 18487875755870, 11641744096927],
        a: &[
            -244833766, -174317847, 27563548, -139354857, -263080460, -103732784, -31374935,
            147501047, 196160848, 157051391, -74983103, -110434656, -177249199, 65223483,
            -256766740, -33448392, 156980168, -71044364, -222187761, 221444519, 258840628,
            -4487359, 58676666, 137766788, 0, 252880746, -171224582, -226074288, -28555686,
            -192666178, -201594526, 47513733, 234250633, 111074292, 78900293, -255337925,
            -171161571, -136262562, -224249939, -191021949, -255806618, -57735200, -20221545,
            113241693, 33113661, -155011590, -248575481, 169298856,
        ],
        b: &[
            -1, -250334587, 185680131, 258868517, 226300836, 26710591, 239254191, -94857843,
            -264181606, -113230979, -81570358, -57611523, 76461961, 259483326, 119850259, 36535712,
            -143663117, 213256283, -167386410, -16086397, -267614770, -184660800, -153899303,
            205045559, 214588894, -609320, -149714482, 26816977, 146688690, 239837340, 193458012,
            -3582720, -66796217, -166457092, 29146943, 11880318, 168869329, 49957055, 34316881,
            101691404, 184941880, -32703097, 145245342, -12401722, 163931562, 143719321, -98818749,
            -148509479,
        ],
    },
];

/// The moduli of a ring.
fn moduli_of(rt: &impl Abort, alloc: Global, ring: &Ring) -> Result<Moduli, Fail>
    ensures count { IfOk result (λ moduli. (length moduli.chain ≡ 2) × (length moduli.special ≡ 1)) }
    ensures same { IfOk result (λ moduli. (moduli.m ≡ ring.now.m) × (moduli.p ≡ 257)) }
{
    assert!(rt; ring.m >= 3 && ring.m <= 65536);
    let none = Vec::new(alloc);
    let one = Vec::from_slice(alloc, &[ring.inverses[0]])?;
    let two = Vec::from_slice(alloc, &[ring.inverses[1], ring.inverses[2]])?;
    let chain = [ring.rows[0], ring.rows[1]];
    let moduli = Moduli::new(alloc, ring.m, P, &chain, &[ring.rows[2]], &[none, one, two])?;
    Ok(moduli)
}

/// The tables of a ring.
pub fn tables_of(rt: &impl Abort, alloc: Global, ring: &Ring) -> Result<Rc<RingTables>, Fail>
    ensures { IfOk result (λ tables. (length tables.value.moduli.chain ≡ 2) × (length tables.value.moduli.special ≡ 1)) }
{
    let moduli = moduli_of(rt, alloc, ring)?;
    assert!(rt; ring.m >= 3 && ring.m <= 65536);
    let cyclo = Cyclo::new(alloc, ring.m)?;
    assert!(rt; cyclo.degree() > 0);
    let tables = RingTables::new(alloc, cyclo, P, 1, &[1, 1], moduli)?;
    Ok(Rc::new(alloc, tables)?)
}

/// The polynomial of a ring with these coefficients, modulo all of its moduli.
pub fn polynomial(
    rt: &impl Abort,
    alloc: Global,
    tables: &Rc<RingTables>,
    coeffs: &[i64],
) -> Result<Dcrt, AllocError>
    requires { length tables.now.value.moduli.chain ≡ 2 }
    ensures tables { IfOk result (λ a. a.tables ≡ tables.now.value) }
    ensures chain_rows { IfOk result (λ a. a.chain_rows ≡ 2) }
    ensures special { IfOk result (λ a. a.special ≡ true) }
{
    assert!(rt; coeffs.len() == tables.n() as usize);
    Dcrt::from_small(alloc, tables, 2, true, coeffs)
}

/// The moduli of a ring in their order.
pub fn moduli(ring: &Ring) -> [u64; 3] {
    [ring.rows[0].q, ring.rows[1].q, ring.rows[2].q]
}

/// The residue of a whole number.
fn residue(c: i64, q: u64) -> u64
    requires { 0 < q }
{
    let rest = c.unsigned_abs() % q;
    if c < 0 && rest > 0 { q - rest } else { rest }
}

/// Asserts that a polynomial has the residues of these whole coefficients modulo these moduli.
pub fn assert_residues(
    rt: &impl Abort,
    alloc: Global,
    found: &Dcrt,
    moduli: &[u64],
    whole: &[i64],
) -> Result<(), Fail> {
    let rows = found.to_residues(alloc)?;
    assert_eq!(rt; rows.len(), moduli.len());
    for (row, q) in rows.iter().zip(moduli) {
        assert!(rt; *q > 0);
        assert_eq!(rt; row.len(), whole.len());
        for (word, c) in row.iter().zip(whole) {
            assert_eq!(rt; *word, residue(*c, *q), "modulo {q}");
        }
    }
    Ok(())
}

/// Asserts that k has this inverse modulo m.
fn assert_inverse(rt: &impl Abort, m: u32, k: u32, inverse: u32)
    requires { 0 < m }
    ensures { UnitModulo m k }
{
    let product = k as u64 * inverse as u64;
    assert!(rt; product % m as u64 == 1);
}

/// Asserts that k has this inverse modulo the m of a polynomial.
pub fn assert_unit(rt: &impl Abort, a: &Dcrt, k: u32, inverse: u32)
    ensures low { 1 ≤ k }
    ensures high { k < a.now.tables.moduli.m }
    ensures unit { UnitModulo a.now.tables.moduli.m k }
{
    let m = a.tables().m();
    assert!(rt; k >= 1 && k < m);
    assert_inverse(rt, m, k, inverse);
}

#[test]
fn tables_are_read_back(rt: HostRuntime) -> Result<(), Fail> {
    for ring in &RINGS {
        let tables = tables_of(&rt, rt.alloc(), ring)?;
        assert_eq!(rt; (tables.m(), tables.n()), (ring.m, ring.degree));
        assert_eq!(rt; (tables.p(), tables.weight()), (257, 1));
        assert_eq!(rt; tables.height(), ring.height);
        assert_eq!(rt; (tables.chain_len(), tables.special_len()), (2, 1));
        assert_eq!(rt; tables.units().len(), ring.degree as usize);
        assert_eq!(rt; tables.digits(), [1, 1].as_slice());
        assert_eq!(rt; tables.moduli().m(), ring.m);
        assert_eq!(rt; tables.cyclo().degree(), ring.degree);
    }
    Ok(())
}
