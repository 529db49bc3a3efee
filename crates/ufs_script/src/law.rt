// What ties reading to printing, and to texts of which only the beginning is read.
ghost use Rattle.ufs_script.specs.Spelling.{PrintedIsRead};
ghost use Rattle.ufs_script.specs.Reading.{LongerIsAlike};

/// A law on scripts, which costs nothing: a script that is printed in the canonical spelling and
/// read again stays the same, its schedule too.
pub fn printing_and_reading()
    ensures { PrintedIsRead }
{}

/// A law on texts, which costs nothing: whatever follows a text that is too long, the answer stays
/// the same. So the reader may stop there.
pub fn a_longer_text_breaks_alike()
    ensures { LongerIsAlike }
{}
