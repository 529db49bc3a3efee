// Laws of the definitions, each the contract of a function that does nothing.
ghost use Rattle.ufs_dealt.specs.First.{ClientsAreIdle, ClientsLeaveRest, FirstFilesAreHere, FirstFilesAreLow, FirstIsApart, LiveFilesAreThere, OthersStayIdle, PoolsAreThere, TakePart};

/// Who takes part in a session over an image. What is left of its first hand, once names and store are dealt, may be dealt too: each
/// client, each pool, and the files with what is known of their commits. Each live file is there, and their numbers are low.
pub fn dealt_law()
    ensures counts { TakePart }
    ensures clients { ClientsAreIdle }
    ensures rest { ClientsLeaveRest }
    ensures others { OthersStayIdle }
    ensures pools { PoolsAreThere }
    ensures apart { FirstIsApart }
    ensures files { FirstFilesAreHere }
    ensures low { FirstFilesAreLow }
    ensures there { LiveFilesAreThere }
{}
