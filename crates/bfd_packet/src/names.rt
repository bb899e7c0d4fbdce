//! The name of each test, as reports print it.

ghost use Rattle.std.specs.Prelude.{◌≡◌};
ghost use Rattle.bfd_packet.specs.TestNames.{name_of};

use crate::Test;

impl Test {
    /// The test's name, as it is written in the enum.
    pub fn name(self) -> &'static str
        ensures { result.now ≡ name_of self }
    {
        match self {
            Test::Short => "Short",
            Test::Version => "Version",
            Test::LengthMin => "LengthMin",
            Test::LengthOver => "LengthOver",
            Test::DetectMult => "DetectMult",
            Test::Multipoint => "Multipoint",
            Test::MyDiscr => "MyDiscr",
            Test::YourUnknown => "YourUnknown",
            Test::YourZeroState => "YourZeroState",
            Test::NoSession => "NoSession",
            Test::Ttl => "Ttl",
            Test::AuthUnexpected => "AuthUnexpected",
            Test::AuthMissing => "AuthMissing",
            Test::AuthType => "AuthType",
            Test::AuthKey => "AuthKey",
            Test::AuthLen => "AuthLen",
            Test::AuthSeq => "AuthSeq",
            Test::AuthDigest => "AuthDigest",
            Test::AdminDown => "AdminDown",
            Test::NotDemand => "NotDemand",
            Test::MultipointYour => "MultipointYour",
            Test::NoTail => "NoTail",
            Test::EchoForm => "EchoForm",
            Test::EchoStale => "EchoStale",
        }
    }
}
