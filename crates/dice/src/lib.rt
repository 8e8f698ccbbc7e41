// From dice.rs: a roll of two dice, the dice byte, the 21 rolls and the 441 pairs of rolls.
#![tactic(auto)]

ghost use Rattle.std.specs.Prelude.{◌≡◌, ◌≤◌, get_or};
ghost use Rattle.ints.specs.Refusals.{told};
ghost use Rattle.dice.specs.Rolls.{byte_of, rolls, pairs};
ghost use Rattle.dice.specs.Dice.{is_die, dice_of, dice_byte_of, is_byte_in, dice_of_byte};

use ints::refusal::Refusal;

// Two different dice, 1 to 6: `big` is above `small`.
#[derive(Clone, Copy, Debug, PartialEq, Eq)]
pub struct MixedDice {
    pub big: usize,
    pub small: usize,
}

// A roll.
#[derive(Clone, Copy, Debug, PartialEq, Eq)]
pub enum Dice {
    Double(usize),
    Mixed(MixedDice),
}

impl Dice {
    // The roll of two dice, in either order, or the refusal of a die outside 1 to 6.
    pub fn new(die1: usize, die2: usize) -> Result<Dice, Refusal>
        ensures { result ≡ dice_of die1 die2 }
    {
        if !is_die(die1) {
            return Err(Refusal::DieOutside1To6);
        }
        if !is_die(die2) {
            return Err(Refusal::DieOutside1To6);
        }
        if die1 == die2 {
            return Ok(Dice::Double(die1));
        }
        Ok(Dice::Mixed(MixedDice {
            big: die1.max(die2),
            small: die1.min(die2),
        }))
    }
}

// The roll of a dice byte, or the refusal of a byte that is none of the 21.
impl TryFrom<u8> for Dice {
    type Error = Refusal;

    ghost try_from_gives = { λ byte read. read ≡ dice_of_byte byte };

    fn try_from(byte: u8) -> Result<Dice, Refusal> {
        if is_dice_byte(byte) {
            Dice::new((byte / 16) as usize, (byte % 16) as usize)
        } else {
            Err(Refusal::NoSuchRoll)
        }
    }
}

// Whether a die shows 1 to 6.
pub fn is_die(die: usize) -> bool
    ensures { result ≡ is_die die }
{
    1 <= die && die <= 6
}

// The dice byte of two dice, in either order: larger × 16 + smaller; or the refusal of a die outside 1 to 6.
pub fn dice_byte(die1: usize, die2: usize) -> Result<u8, Refusal>
    ensures { told result ≡ dice_byte_of die1 die2 }
{
    Ok(match Dice::new(die1, die2)? {
        Dice::Double(die) => packed(die, die),
        Dice::Mixed(dice) => packed(dice.big, dice.small),
    })
}

// The dice byte of a larger and a smaller die.
fn packed(big: usize, small: usize) -> u8
    requires { (big ≤ 6) × (small ≤ 6) }
    ensures { result ≡ byte_of big small }
{
    (big * 16 + small) as u8
}

// Whether a byte is one of the 21: its halves are two dice, the high one at least the low one.
fn is_dice_byte(byte: u8) -> bool
    ensures { result ≡ is_byte_in rolls byte }
{
    let big = byte / 16;
    let small = byte % 16;
    1 <= small && (small <= big && big <= 6)
}

// Roll i of the 21: weight × 256 + dice byte. 0, a roll that never comes up, from 21 on.
pub fn roll(i: usize) -> u32
    ensures { result ≡ get_or rolls i 0 }
{
    if i < 21 { ALL_21[i] } else { 0 }
}

// Entry n of the 441 pairs of rolls: weight × 65536 + first dice byte × 256 + second. 0, a pair that never comes up,
// from 441 on.
pub fn pair(n: usize) -> u32
    ensures { result ≡ get_or pairs n 0 }
{
    if n < 441 { ALL_441[n] } else { 0 }
}

// The 21 rolls: for each small die its double, weight 1, then its mixed rolls upward, weight 2. Each is weight × 256 +
// dice byte.
pub const ALL_21: [u32; 21] = [
    273, 545, 561, 577, 593, 609, 290, 562, 578, 594, 610, 307, 579, 595, 611, 324, 596, 612, 341,
    613, 358,
];

// The 441 pairs of rolls, that of rolls i and j at 21 i + j. Each is the product of the weights × 65536 + first dice byte ×
// 256 + second.
pub const ALL_441: [u32; 441] = [
    69905, 135457, 135473, 135489, 135505, 135521, 69922, 135474, 135490, 135506, 135522, 69939,
    135491, 135507, 135523, 69956, 135508, 135524, 69973, 135525, 69990, 139537, 270625, 270641,
    270657, 270673, 270689, 139554, 270642, 270658, 270674, 270690, 139571, 270659, 270675, 270691,
    139588, 270676, 270692, 139605, 270693, 139622, 143633, 274721, 274737, 274753, 274769, 274785,
    143650, 274738, 274754, 274770, 274786, 143667, 274755, 274771, 274787, 143684, 274772, 274788,
    143701, 274789, 143718, 147729, 278817, 278833, 278849, 278865, 278881, 147746, 278834, 278850,
    278866, 278882, 147763, 278851, 278867, 278883, 147780, 278868, 278884, 147797, 278885, 147814,
    151825, 282913, 282929, 282945, 282961, 282977, 151842, 282930, 282946, 282962, 282978, 151859,
    282947, 282963, 282979, 151876, 282964, 282980, 151893, 282981, 151910, 155921, 287009, 287025,
    287041, 287057, 287073, 155938, 287026, 287042, 287058, 287074, 155955, 287043, 287059, 287075,
    155972, 287060, 287076, 155989, 287077, 156006, 74257, 139809, 139825, 139841, 139857, 139873,
    74274, 139826, 139842, 139858, 139874, 74291, 139843, 139859, 139875, 74308, 139860, 139876,
    74325, 139877, 74342, 143889, 274977, 274993, 275009, 275025, 275041, 143906, 274994, 275010,
    275026, 275042, 143923, 275011, 275027, 275043, 143940, 275028, 275044, 143957, 275045, 143974,
    147985, 279073, 279089, 279105, 279121, 279137, 148002, 279090, 279106, 279122, 279138, 148019,
    279107, 279123, 279139, 148036, 279124, 279140, 148053, 279141, 148070, 152081, 283169, 283185,
    283201, 283217, 283233, 152098, 283186, 283202, 283218, 283234, 152115, 283203, 283219, 283235,
    152132, 283220, 283236, 152149, 283237, 152166, 156177, 287265, 287281, 287297, 287313, 287329,
    156194, 287282, 287298, 287314, 287330, 156211, 287299, 287315, 287331, 156228, 287316, 287332,
    156245, 287333, 156262, 78609, 144161, 144177, 144193, 144209, 144225, 78626, 144178, 144194,
    144210, 144226, 78643, 144195, 144211, 144227, 78660, 144212, 144228, 78677, 144229, 78694,
    148241, 279329, 279345, 279361, 279377, 279393, 148258, 279346, 279362, 279378, 279394, 148275,
    279363, 279379, 279395, 148292, 279380, 279396, 148309, 279397, 148326, 152337, 283425, 283441,
    283457, 283473, 283489, 152354, 283442, 283458, 283474, 283490, 152371, 283459, 283475, 283491,
    152388, 283476, 283492, 152405, 283493, 152422, 156433, 287521, 287537, 287553, 287569, 287585,
    156450, 287538, 287554, 287570, 287586, 156467, 287555, 287571, 287587, 156484, 287572, 287588,
    156501, 287589, 156518, 82961, 148513, 148529, 148545, 148561, 148577, 82978, 148530, 148546,
    148562, 148578, 82995, 148547, 148563, 148579, 83012, 148564, 148580, 83029, 148581, 83046,
    152593, 283681, 283697, 283713, 283729, 283745, 152610, 283698, 283714, 283730, 283746, 152627,
    283715, 283731, 283747, 152644, 283732, 283748, 152661, 283749, 152678, 156689, 287777, 287793,
    287809, 287825, 287841, 156706, 287794, 287810, 287826, 287842, 156723, 287811, 287827, 287843,
    156740, 287828, 287844, 156757, 287845, 156774, 87313, 152865, 152881, 152897, 152913, 152929,
    87330, 152882, 152898, 152914, 152930, 87347, 152899, 152915, 152931, 87364, 152916, 152932,
    87381, 152933, 87398, 156945, 288033, 288049, 288065, 288081, 288097, 156962, 288050, 288066,
    288082, 288098, 156979, 288067, 288083, 288099, 156996, 288084, 288100, 157013, 288101, 157030,
    91665, 157217, 157233, 157249, 157265, 157281, 91682, 157234, 157250, 157266, 157282, 91699,
    157251, 157267, 157283, 91716, 157268, 157284, 91733, 157285, 91750,
];
