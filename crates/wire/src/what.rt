// What a response tells, by its number.
ghost use Rattle.std.specs.Prelude.{◌≡◌, ◌&&◌, if◌then◌else◌, Some, None, nat_le};
ghost use Rattle.std.specs.Option.{option_map};
ghost use Rattle.wire.specs.Shapes.{names_one};
ghost use Rattle.wire.specs.Whats.{number_of};

#[derive(Clone, Copy)]
pub enum What {
    Data,
    Alias,
    Referral,
    NoData,
    NoName,
    Nowhere,
    TooLong,
}

impl What {
    pub fn from_number(number: u8) -> Option<What>
        ensures { option_map number_of result ≡ (if nat_le 1 number && nat_le number 7 then Some number else None) }
    {
        match number {
            1 => Some(What::Data),
            2 => Some(What::Alias),
            3 => Some(What::Referral),
            4 => Some(What::NoData),
            5 => Some(What::NoName),
            6 => Some(What::Nowhere),
            7 => Some(What::TooLong),
            _ => None,
        }
    }

    pub fn number(self) -> u8
        ensures { result ≡ number_of self }
    {
        match self {
            What::Data => 1,
            What::Alias => 2,
            What::Referral => 3,
            What::NoData => 4,
            What::NoName => 5,
            What::Nowhere => 6,
            What::TooLong => 7,
        }
    }

    // Does a name stand before its pieces?
    pub fn names_one(self) -> bool
        ensures { result ≡ names_one (number_of self) }
    {
        matches!(self, What::Alias | What::Referral)
    }
}
