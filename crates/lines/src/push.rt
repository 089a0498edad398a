// One byte more.
ghost use Rattle.std.specs.Prelude.{◌≡◌, true};
ghost use Rattle.lines.specs.Numbers.{extended, is_digit};
ghost use Rattle.lines.specs.Reader.{after_digits, after_gap, after_letter, after_start};
ghost use Rattle.lines.specs.Reader.{begun, digit_read, field_read, is_empty, pushed, spoiled};

use crate::{Phase, Reader};

impl Reader {
    pub fn begin() -> Reader
        ensures { result ≡ begun }
    {
        Reader {
            phase: Phase::Start,
            letter: 0,
            count: 0,
            fields: [0; 6],
            value: 0,
        }
    }

    fn spoil(self) -> Reader
        ensures { result ≡ spoiled self }
    {
        Reader {
            phase: Phase::Spoiled,
            ..self
        }
    }

    #[tactic(auto, unfolding(crate::specs::Reader::after_start))]
    fn start(self, byte: u8) -> Reader
        ensures { result ≡ after_start self byte }
    {
        let space = byte == b' ';
        if space {
            return self.spoil();
        }
        Reader {
            phase: Phase::Letter,
            letter: byte,
            ..Reader::begin()
        }
    }

    #[tactic(auto, unfolding(crate::specs::Reader::after_letter))]
    fn letter(self, byte: u8) -> Reader
        ensures { result ≡ after_letter self byte }
    {
        let apart = byte == b' ';
        if apart {
            return Reader {
                phase: Phase::Gap, // the first field follows
                ..self
            };
        }
        self.spoil()
    }

    #[tactic(auto, using(crate::proofs::Bytes::digit_low), unfolding(crate::specs::Reader::after_gap))]
    fn gap(self, byte: u8) -> Reader
        ensures { result ≡ after_gap self byte }
    {
        let first = (b'0' <= byte) & (byte <= b'9');
        if first {
            let value = (byte - b'0') as u64;
            return Reader {
                phase: Phase::Digits,
                value,
                ..self
            };
        }
        self.spoil()
    }

    // The digit goes on the value, unless that is past 64 bits then.
    #[tactic(auto, using(crate::proofs::Bytes::digit_low))]
    fn digit(self, byte: u8) -> Reader
        requires { is_digit byte ≡ true }
        ensures { result ≡ digit_read self (extended self.value byte) }
    {
        let digit = (byte - b'0') as u64;
        if self.value <= (u64::MAX - digit) / 10 {
            let value = 10 * self.value + digit;
            return Reader {
                phase: Phase::Digits,
                value,
                ..self
            };
        }
        self.spoil()
    }

    // The field is whole, and another one follows: seven are the most.
    fn field(self) -> Reader
        ensures { result ≡ field_read self }
    {
        let another = self.count < 6;
        if another {
            let [_, second, third, fourth, fifth, sixth] = self.fields;
            return Reader {
                phase: Phase::Gap, // another field follows
                letter: self.letter,
                count: self.count + 1,
                fields: [second, third, fourth, fifth, sixth, self.value],
                value: 0,
            };
        }
        self.spoil()
    }

    #[tactic(auto, unfolding(crate::specs::Reader::after_digits))]
    fn digits(self, byte: u8) -> Reader
        ensures { result ≡ after_digits self byte }
    {
        let digit = (b'0' <= byte) & (byte <= b'9');
        if digit {
            return self.digit(byte);
        }
        let ends = byte == b' ';
        if ends {
            return self.field();
        }
        self.spoil()
    }

    #[tactic(auto, unfolding(crate::specs::Reader::pushed))]
    pub fn push(self, byte: u8) -> Reader
        ensures { result ≡ pushed self byte }
    {
        match self.phase {
            Phase::Digits => self.digits(byte),
            Phase::Gap => self.gap(byte),
            Phase::Letter => self.letter(byte),
            Phase::Start => self.start(byte),
            Phase::Spoiled => self,
        }
    }

    // Whether no byte of the line is read.
    pub fn is_empty(self) -> bool
        ensures { result ≡ is_empty self.phase }
    {
        matches!(self.phase, Phase::Start)
    }
}
