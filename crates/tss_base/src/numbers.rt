// The digits of the fixed numbers.
ghost use Rattle.tss_base.specs.Numbers.{AreAddresses, AreBounds, AreCalls, AreCauses, AreListEntries, AreRefusals};

/// Each fixed number is the one that images, machine descriptions, programs and answers have. Definitions cite the code's
/// constants, so what is proved by them says nothing of their digits; this does.
pub fn fixed_numbers()
    ensures addresses { AreAddresses }
    ensures bounds { AreBounds }
    ensures calls { AreCalls }
    ensures causes { AreCauses }
    ensures refusals { AreRefusals }
    ensures lists { AreListEntries }
{}
