// No code: theorems about the calls by number. Those that are answered are the numbers below the summary's counts, and all others are 19
// (specs/ByNumber.antt); what is handed back of a record is as long as it says (specs/WholePayload.antt); and the records that the calls
// answer are those that a build takes (specs/SameRecord.antt).
#![tactic(auto)]
