#![tactic(auto)]

// Laws of the record text: what a table is told as is entered as its record (record_text/specs/Promises.antt). No code.
