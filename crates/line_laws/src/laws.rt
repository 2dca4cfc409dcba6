//! What the sentence of a line comes to, in words of what commands print.

ghost use Rattle.std.specs.Prelude.{◌≡◌, ◌++◌, ℕ, List, Some, codes};
ghost use Rattle.command_check.specs.Words.{check_fault_words, evidence_word};
ghost use Rattle.command_check.specs.declared.stop.CheckedFile.{CheckedFile};
ghost use Rattle.command_complete.specs.Words as completing;
ghost use Rattle.command_complete.specs.declared.stop.Refusal as completions;
ghost use Rattle.command_desk.specs.Course.{long_word};
ghost use Rattle.keys_files.specs.Words.{key_fault_words, keys_fault_words};
ghost use Rattle.command_end.specs.Lines.{file_refusal_words, file_word};
ghost use Rattle.command_inputs.specs.Words as funding;
ghost use Rattle.command_inputs.specs.declared.refusal.Refusal as payments;
ghost use Rattle.command_resume.specs.Words.{kept_words};
ghost use Rattle.command_desk.specs.Line as lines;
ghost use Rattle.command_settle.specs.Words as settling;
ghost use Rattle.command_settle.specs.declared.stop.Refusal as settlings;
ghost use Rattle.command_share.specs.Stops.{not_share_words, share_dust_words};
ghost use Rattle.command_sweep.specs.Stops.{not_sweep_words, too_heavy_words};
ghost use Rattle.command_wide.specs.Stops.{not_wide_words};
ghost use Rattle.fault_lines.specs.Lines.{HasSentence, line_sentence};
ghost use Rattle.fault_lines.specs.Sentences.{check_sentence, kept_sentence, keys_sentence, none_sentence, stop_sentence, unfinished_sentence, unsuited_sentence};
ghost use Rattle.fault_lines.specs.declared.stop.Stop.TheVariants as stops;
ghost use Rattle.fault_lines.specs.declared.unsuited.Unsuited.TheVariants as unsuited;
ghost use Rattle.fund_files.specs.declared.refusal.File.{File};
ghost use Rattle.fund_files.specs.declared.refusal.FileRefusal.{FileRefusal};
ghost use Rattle.fund_report.specs.ReportText.{none_text, unfinished_text};
ghost use Rattle.keys_text.specs.declared.fault.KeysFault.{KeysFault};
ghost use Rattle.psbt_keys.specs.declared.fault.KeyFault.{KeyFault};
ghost use Rattle.kept_job.specs.declared.fault.KeptFault.{KeptFault};
ghost use Rattle.report_check.specs.declared.fault.CheckFault.{CheckFault};
ghost use Rattle.closing_log.specs.declared.log.Stage.{Stage};
ghost use Rattle.line_laws.specs.Sentences.{HasFileNumbers, HasPaymentNumbers, HasSettlingNumbers, completion_sentence, evidence_sentence, file_sentence, keyed_sentence, limit_sentence, payment_sentence, settling_sentence};

/// The law of refusals: the line of each file, payment, PSBT, keys file and signed transaction that is refused has its sentence. An index
/// has 128 bits at most, as every index has. A call does nothing.
pub fn refusals_have_their_sentence()
    ensures file { (r : FileRefusal) → HasFileNumbers r → HasSentence (file_refusal_words r) (file_sentence r) }
    ensures payment { (r : payments.Refusal) → HasPaymentNumbers r → HasSentence (funding.refusal_words r) (payment_sentence r) }
    ensures completion { (r : completions.Refusal) → HasSentence (completing.refusal_words r) (completion_sentence r) }
    ensures keys { (f : KeysFault) → HasSentence (codes "input keys " ++ keys_fault_words f) (keys_sentence f) }
    ensures keyed { (f : KeyFault) → HasSentence (codes "input psbt " ++ key_fault_words f) (keyed_sentence f) }
    ensures settling { (r : settlings.Refusal) → HasSettlingNumbers r → HasSentence (settling.refusal_words r) (settling_sentence r) }
{}

/// The law of requests that `wide`, `share` or `sweep` doesn't pay: the line of each has its sentence, whatever it counts. A call
/// does nothing.
pub fn unsuited_requests_have_their_sentence()
    ensures wide { HasSentence not_wide_words (unsuited_sentence unsuited.NotWide) }
    ensures share { HasSentence not_share_words (unsuited_sentence unsuited.NotShare) }
    ensures dust { (index : ℕ) → HasSentence (share_dust_words index) (unsuited_sentence (unsuited.ShareDust index)) }
    ensures sweep { HasSentence not_sweep_words (unsuited_sentence unsuited.NotSweep) }
    ensures heavy { (weight : ℕ) → HasSentence (too_heavy_words weight) (unsuited_sentence (unsuited.TooHeavy weight)) }
{}

/// The law of what is judged: the line of each fault of a kept job, and of each rule that a report breaks, has the sentence
/// of that fault. A call does nothing.
pub fn judgements_have_their_sentence()
    ensures kept { (f : KeptFault) → HasSentence (kept_words f) (kept_sentence f) }
    ensures check { (f : CheckFault) → HasSentence (codes "check " ++ check_fault_words f) (check_sentence f) }
{}

/// The law of limits: the line of each file that is longer than its limit has the sentence of that file. A call does
/// nothing.
pub fn limits_have_their_sentence()
    ensures file { (f : File) → HasSentence (codes "limit " ++ file_word f) (limit_sentence f) }
    ensures evidence { (f : CheckedFile) → HasSentence (codes "limit " ++ evidence_word f) (evidence_sentence f) }
    ensures opened { (name file : List ℕ) → HasSentence (codes "limit " ++ long_word (lines.Open name file)) (stop_sentence stops.RequestLimit) }
    ensures blocks { (file : List ℕ) → HasSentence (codes "limit " ++ long_word (lines.Blocks file)) (stop_sentence stops.BlocksLimit) }
{}

/// The law of reports without a payment: each has its sentence, whatever it counts. A call does nothing.
pub fn unpaid_reports_have_their_sentence()
    ensures none { (tries : ℕ) → line_sentence (none_text tries) ≡ Some none_sentence }
    ensures unfinished { (tries row : ℕ) (stage : Stage) → line_sentence (unfinished_text tries row stage) ≡ Some unfinished_sentence }
{}
