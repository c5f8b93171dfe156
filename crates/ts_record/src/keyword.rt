//! The words that the lines of a recording begin with: which stands at the front of bytes, and how much of
//! one.
ghost use Rattle.std.specs.Prelude.{◌≡◌, ℕ, ◌<◌, ◌≤◌, ◌++◌, length, IfSome, IfNone};
ghost use Rattle.ts_record.specs.Keywords.{keyword_text, piece_keyword, stall_keyword, common, most_common};
ghost use Rattle.ts_record.specs.Keywords.{LacksKeyword, LacksAll};
ghost use Rattle.ts_record.specs.Refusing.{BreaksOff, OneOf};

/// A word that a line begins with, together with the space or the line feed behind it.
#[derive(Clone, Copy)]
pub enum Keyword {
    /// The first line of a recording of version 1.
    HeaderOne,
    /// That of a recording of version 2.
    HeaderTwo,
    /// A transaction begins.
    Txn,
    /// A piece that the client sends.
    Client,
    /// The client stalls.
    ClientStall,
    /// A piece that the origin sends.
    Origin,
    /// The origin stalls.
    OriginStall,
    /// The client leaves.
    Leave,
    /// A transaction is over.
    Close,
    /// The recording is over.
    End,
}

impl Keyword {
    /// Its bytes.
    pub fn spelling(self) -> &'static [u8]
        ensures { result.now ≡ keyword_text self }
    {
        match self {
            Keyword::HeaderOne => b"tsx-recording 1\n",
            Keyword::HeaderTwo => b"tsx-recording 2\n",
            Keyword::Txn => b"txn\n",
            Keyword::Client => b"client ",
            Keyword::ClientStall => b"client-stall ",
            Keyword::Origin => b"origin ",
            Keyword::OriginStall => b"origin-stall ",
            Keyword::Leave => b"leave ",
            Keyword::Close => b"close\n",
            Keyword::End => b"end\n",
        }
    }
}

/// One of the two sides of a transaction.
#[derive(Clone, Copy)]
pub enum Side {
    Client,
    Origin,
}

impl Side {
    /// The keyword of a piece that it sends.
    pub fn piece_keyword(self) -> Keyword
        ensures { result ≡ piece_keyword self }
    {
        match self {
            Side::Client => Keyword::Client,
            Side::Origin => Keyword::Origin,
        }
    }

    /// That of a stall.
    pub fn stall_keyword(self) -> Keyword
        ensures { result ≡ stall_keyword self }
    {
        match self {
            Side::Client => Keyword::ClientStall,
            Side::Origin => Keyword::OriginStall,
        }
    }
}

/// The bytes behind the keyword, if it stands at the front.
pub fn after(bytes: &[u8], keyword: Keyword) -> Option<&[u8]>
    ensures some { IfSome result (λ behind. bytes.now ≡ keyword_text keyword ++ behind.now) }
    ensures none { IfNone result (LacksKeyword bytes.now keyword) }
{
    bytes.strip_prefix(keyword.spelling())
}

// How many bytes two texts have in common at their fronts.
fn common(left: &[u8], right: &[u8]) -> usize
    ensures count { result ≡ common left.now right.now }
    ensures within { result ≤ length left.now }
{
    let [first, others @ ..] = left else {
        return 0;
    };
    let [second, rest @ ..] = right else {
        return 0;
    };
    if first == second {
        1 + common(others, rest)
    } else {
        0
    }
}

// The most bytes that the front has in common with one of these keywords.
fn most_common(bytes: &[u8], keywords: &[Keyword]) -> usize
    ensures count { result ≡ most_common bytes.now keywords.now }
    ensures within { result ≤ length bytes.now }
{
    match keywords {
        [] => 0,
        [first, others @ ..] => { common(bytes, first.spelling()).max(most_common(bytes, others)) }
    }
}

/// How many bytes are left behind the longest front that one of these keywords begins with, where none of
/// them stands at the front.
pub fn left_by(bytes: &[u8], keywords: &[Keyword]) -> usize
    requires some { 0 < length keywords.now }
    requires lacks { LacksAll bytes.now keywords.now }
    ensures { BreaksOff (OneOf keywords.now) bytes.now result }
{
    bytes.len() - most_common(bytes, keywords)
}
