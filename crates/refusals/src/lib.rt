// The refusals of document 01, by their numbers, and how many bytes an operation wrote.
#![tactic(auto)]

ghost use Rattle.std.specs.Prelude.{◌≡◌};
ghost use Rattle.refusals.specs.Refusals.{number_of};
ghost use Rattle.refusals.specs.Answers.{Shows};

// 01, "Refusal numbers". An operation that refuses says why, hands back the old state and writes nothing.
#[derive(Clone, Copy, Debug, PartialEq, Eq)]
pub enum Refusal {
    TransportNot188 = 1,
    GatheringBufferShort = 2,
    ReaderOutputShort = 3,
    PidOutOfRange = 4,
    SyncByteWrong = 5,
    TransportErrorMarked = 6,
    AnotherPid = 7,
    Scrambled = 8,
    NoPayload = 9,
    AdaptationFieldLong = 10,
    PointerBeyondPayload = 11,
    CountRepeated = 12,
    BatchCut = 13,
    CrcWrong = 14,
    BatchLong = 15,
    OutputShort = 16,
    FirstCountOver15 = 17,
    SliceUnder10 = 18,
    LengthUnlikePayloadLen = 19,
    ReservedBitSet = 20,
    ReservedType = 21,
    PadBitsSet = 22,
    PayloadSizeWrong = 23,
    BandwidthCodeOver5 = 24,
    SubsecondsOverASecond = 25,
    GroupCut = 26,
    FunctionCut = 27,
    FunctionLengthWrong = 28,
    BandwidthValueReserved = 29,
    MipHeaderWrong = 30,
    SynchronizationIdWrong = 31,
    SectionLengthWrong = 32,
    TimeStampOver = 33,
    MaximumDelayOver = 34,
    StuffingNotFf = 35,
    MipAddressingOver163 = 36,
    ReceptionTimeOver = 37,
    TooWideOrUnfitState = 38,
}

impl Refusal {
    // Its number in 01.
    pub fn number(self) -> u32
        ensures { result ≡ number_of self }
    {
        self as u32
    }
}

// What C sees of an operation that writes: how many bytes of the lent output are the result; 0 with a refusal.
#[repr(C)]
#[derive(Clone, Copy)]
pub struct Written {
    pub refusal: u32,
    pub bytes: u32,
}

impl From<Result<u32, Refusal>> for Written {
    ghost from_gives = { Shows };

    fn from(answer: Result<u32, Refusal>) -> Written {
        match answer {
            Ok(bytes) => Written { refusal: 0, bytes },
            Err(refusal) => Written {
                refusal: refusal.number(),
                bytes: 0,
            },
        }
    }
}
