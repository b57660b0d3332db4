ghost use Rattle.std.specs.Prelude.{◌≡◌, ◌+◌, ◌<◌, true, [], ◌∷◌, ◌++◌, take, drop, IfOk, sum};
ghost use Rattle.records.specs.Frames.{badge_bits, badge_in, even_bit, first_thirteen, frame_of, frame_read, last_thirteen, odd_bit, well_formed};
ghost use Rattle.std.specs.Int.Digits.{number_from_digits};

use keys::badge::Badge;
use keys::refusal::Refusal;

// A badge frame as it came: 26 bits are carried in 32, and it may not be well formed.
#[derive(Clone, Copy, Debug, PartialEq, Eq)]
pub struct Frame(pub u32);

impl Frame {
    // The ones among the first thirteen bits.
    fn first_ones(self) -> u32
        ensures { result ≡ sum (first_thirteen self.0) }
    {
        ((self.0 >> 13) & 0x1fff).count_ones()
    }

    // The ones among the last thirteen bits. Kept beside the first half's: the halves have a
    // definition each, and one function for both would take the shift as well.
    fn last_ones(self) -> u32
        ensures { result ≡ sum (last_thirteen self.0) }
    {
        (self.0 & 0x1fff).count_ones()
    }

    // Whether the frame is well formed: 26 bits, with an even number of ones in the first half and
    // an odd one in the last.
    pub fn is_well_formed(self) -> bool
        ensures { result ≡ well_formed self.0 }
    {
        self.0 >> 26 == 0 && self.first_ones() % 2 == 0 && self.last_ones() % 2 == 1
    }

    // The badge between the first and the last bit.
    fn badge(self) -> Badge
        ensures value { result ≡ badge_in self.0 }
        ensures written_back { well_formed self.0 ≡ true → frame_of result ≡ self.0 }
    {
        let site = (self.0 >> 17) & 0xff;
        let card = (self.0 >> 1) & 0xffff;
        Badge {
            site: site as u8,
            card: card as u16,
        }
    }

    // A badge's bits between a first and a last bit.
    fn enclosed(first: u32, badge: Badge, last: u32) -> Frame
        requires { (first < 2) × (last < 2) }
        ensures value { result.0 ≡ number_from_digits 2 (first ∷ (badge_bits badge ++ (last ∷ []))) }
        ensures read_back { badge_in result.0 ≡ badge }
        ensures first_half { sum (first_thirteen result.0) ≡ first + sum (take 12 (badge_bits badge)) }
        ensures last_half { sum (last_thirteen result.0) ≡ sum (drop 12 (badge_bits badge)) + last }
        ensures sound { first ≡ even_bit (take 12 (badge_bits badge)) → last ≡ odd_bit (drop 12 (badge_bits badge)) → well_formed result.0 ≡ true }
    {
        let site = u32::from(badge.site);
        let card = u32::from(badge.card);
        Frame((first << 25) | (site << 17) | (card << 1) | last)
    }
}

// The badge in a frame; a frame that is not well formed is refused as a misread badge. What is
// read is written back as it was.
impl TryFrom<Frame> for Badge {
    type Error = Refusal;

    ghost try_from_gives = { λ f r. record { value : r ≡ frame_read f.0; written_back : IfOk r (λ b. frame_of b ≡ f.0) } };

    fn try_from(frame: Frame) -> Result<Badge, Refusal> {
        if !frame.is_well_formed() {
            return Err(Refusal::MisreadBadge);
        }
        Ok(frame.badge())
    }
}

// The frame of a badge: its first bit makes the ones in the first half even, and its last bit
// those in the last half odd. So it is well formed, and the badge is read back from it.
impl From<Badge> for Frame {
    ghost from_gives = { λ b f. record { value : f.0 ≡ frame_of b; sound : well_formed f.0 ≡ true; read_back : badge_in f.0 ≡ b } };

    fn from(badge: Badge) -> Frame {
        let bare = Frame::enclosed(0, badge, 0);
        Frame::enclosed(bare.first_ones() % 2, badge, 1 - bare.last_ones() % 2)
    }
}
