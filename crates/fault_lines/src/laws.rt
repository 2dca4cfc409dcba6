//! What the sentence of a line comes to, in words of the faults that lines tell.

ghost use Rattle.std.specs.Prelude.{◌≡◌, ◌≢◌, ◌++◌, ℕ, ℤ, List, None, Some, codes};
ghost use Rattle.block_feed.specs.declared.fault.FeedFault.{FeedFault};
ghost use Rattle.fund_base.specs.declared.outpoint.OutPoint.{OutPoint};
ghost use Rattle.json_fields.specs.declared.fault.FieldFault.TheVariants as fields;
ghost use Rattle.keys_text.specs.declared.fault.KeysFault.TheVariants as keys;
ghost use Rattle.fund_steps.specs.declared.fault.PlanFault.{PlanFault};
ghost use Rattle.fee_bump.specs.declared.fault.BumpFault.{BumpFault};
ghost use Rattle.psbt_codec.specs.declared.fault.PsbtFault.{PsbtFault};
ghost use Rattle.request_text.specs.declared.fault.RequestFault.{RequestFault};
ghost use Rattle.settle_check.specs.declared.fault.Differing.TheVariants as parts;
ghost use Rattle.settle_check.specs.declared.fault.SettleFault.TheVariants as settles;
ghost use Rattle.tx_codec.specs.declared.fault.TxFault.{TxFault};
ghost use Rattle.wallet_text.specs.declared.fault.WalletFault.{WalletFault};
ghost use Rattle.command_end.specs.Coin.{coin_text};
ghost use Rattle.command_end.specs.Words.{bump_fault_words, feed_fault_words, plan_fault_words, psbt_fault_words, request_fault_words, tx_fault_words, wallet_fault_words};
ghost use Rattle.fault_laws.specs.Numbers.{HasRequestNumbers, HasWalletNumbers};
ghost use Rattle.fault_lines.specs.Sentences.{blocks_sentence, bump_sentence, check_sentence, kept_sentence, key_global_sentence, key_input_sentence, key_output_sentence, keys_form_sentence, keys_kind_sentence, keys_member_sentence, keys_missing_sentence, keys_sentence, missing_sentence, none_sentence, other_output_sentence, other_pairs_sentence, plan_sentence, psbt_sentence, request_sentence, settle_sentence, signed_sentence, stop_sentence, unfinished_sentence, unsuited_sentence, wallet_sentence};
ghost use Rattle.fault_lines.specs.declared.stop.Stop.TheVariants as stops;
ghost use Rattle.fault_lines.specs.declared.unsuited.Unsuited.TheVariants as unsuited;
ghost use Rattle.kept_job.specs.declared.fault.KeptFault.TheVariants as jobs;
ghost use Rattle.log_checker.specs.declared.fault.LogFault.{LogFault};
ghost use Rattle.report_check.specs.declared.fault.CheckFault.TheVariants as checks;
ghost use Rattle.fault_lines.specs.Lines.{AllHaveSentence, HasSentence, line_sentence};
ghost use Rattle.fault_lines.specs.Word.{behind, word};

/// The law of fault lines: the line of each fault has the sentence of that fault. Those with an index in them ask that it has
/// 128 bits at most, as every index has. A call does nothing.
pub fn lines_have_their_sentence()
    // A file that breaks a rule, and a coin that two transactions make.
    ensures wallet { (f : WalletFault) → HasWalletNumbers f → HasSentence (codes "input wallet " ++ wallet_fault_words f) (wallet_sentence f) }
    ensures blocks { (f : FeedFault) → HasSentence (codes "input blocks " ++ feed_fault_words f) (blocks_sentence f) }
    ensures request { (f : RequestFault) → HasRequestNumbers f → HasSentence (codes "input request " ++ request_fault_words f) (request_sentence f) }
    ensures plan { (f : PlanFault) → HasSentence (plan_fault_words f) (plan_sentence f) }
    ensures bump { (f : BumpFault) → HasSentence (bump_fault_words f) (bump_sentence f) }
    ensures psbt { (f : PsbtFault) → HasSentence (codes "input psbt " ++ psbt_fault_words f) (psbt_sentence f) }
    ensures coin { (coin : OutPoint) → HasSentence (codes "input book RepeatCoin " ++ coin_text coin) (stop_sentence stops.RepeatCoin) }

    // A file that is not read, and a log that is not written.
    ensures read { (name : List ℕ) → HasSentence (codes "read " ++ name) (stop_sentence stops.Read) }
    ensures write { (name : List ℕ) → HasSentence (codes "write " ++ name) (stop_sentence stops.Write) }

    // A line that is neither a fault line nor a report without a payment has none.
    ensures other { (line : List ℕ) → behind (codes "fault ") line ≡ None → word line ≢ codes "none" → word line ≢ codes "unfinished" → line_sentence line ≡ None }
{}

/// The law of reports without a payment: each has its sentence, whatever stands behind its first word. A call does
/// nothing.
pub fn unpaid_have_their_sentence()
    ensures none { (rest : List ℕ) → line_sentence (codes "none\n" ++ rest) ≡ Some none_sentence }
    ensures none_alone { line_sentence (codes "none") ≡ Some none_sentence }
    ensures unfinished { (rest : List ℕ) → line_sentence (codes "unfinished\n" ++ rest) ≡ Some unfinished_sentence }
    ensures unfinished_alone { line_sentence (codes "unfinished") ≡ Some unfinished_sentence }
{}

/// The law of the fault lines that name no fault of a file: each has its sentence. A call does nothing.
pub fn stops_have_their_sentence()
    // Words that are no command, a file of jobs that fails, and too little memory.
    ensures usage { HasSentence (codes "usage") (stop_sentence stops.Usage) }
    ensures keep { HasSentence (codes "keep") (stop_sentence stops.Keep) }
    ensures memory { HasSentence (codes "memory") (stop_sentence stops.Memory) }

    // What is above its limit.
    ensures wallet { HasSentence (codes "limit wallet") (stop_sentence stops.WalletLimit) }
    ensures blocks { HasSentence (codes "limit blocks") (stop_sentence stops.BlocksLimit) }
    ensures request { HasSentence (codes "limit request") (stop_sentence stops.RequestLimit) }
    ensures coins { HasSentence (codes "limit coins") (stop_sentence stops.CoinsLimit) }
    ensures report { HasSentence (codes "limit report") (stop_sentence stops.ReportLimit) }
    ensures log { HasSentence (codes "limit log") (stop_sentence stops.LogLimit) }
    ensures script { HasSentence (codes "limit script") (stop_sentence stops.ScriptLimit) }
    ensures psbt { HasSentence (codes "limit psbt") (stop_sentence stops.PsbtLimit) }
{}

/// The law of the fault lines of kept jobs: each has the sentence of its fault, whatever it counts. A call does nothing.
pub fn jobs_have_their_sentence()
    // There is no such job, it leaves its form, it was begun with other files, or its tries are used up.
    ensures no_job { HasSentence (codes "saved NoJob") (kept_sentence jobs.NoJob) }
    ensures form { (place : ℕ) → AllHaveSentence (codes "saved SavedForm ") (kept_sentence (jobs.Form place)) }
    ensures job_else { (kept now : List ℕ) → AllHaveSentence (codes "saved JobElse ") (kept_sentence (jobs.JobElse kept now)) }
    ensures spent { HasSentence (codes "limit tries") (kept_sentence jobs.Spent) }

    // Its log lacks a part, is too long, was changed, is of another payment, or proves less than it claims.
    ensures part { (number : ℕ) → AllHaveSentence (codes "saved SavedFalse Part ") (kept_sentence (jobs.Part number)) }
    ensures long_log { HasSentence (codes "limit log") (kept_sentence jobs.LongLog) }
    ensures parts { (kept now : List ℕ) → AllHaveSentence (codes "saved SavedFalse Parts ") (kept_sentence (jobs.Parts kept now)) }
    ensures section { (index : ℕ) → AllHaveSentence (codes "saved SavedFalse Section ") (kept_sentence (jobs.Section index)) }
    ensures ill_formed { HasSentence (codes "saved SavedFalse IllFormed") (kept_sentence jobs.IllFormed) }
    ensures log { (index : ℕ) (fault : LogFault) → AllHaveSentence (codes "saved SavedFalse Log ") (kept_sentence (jobs.Log index fault)) }

    // The file of jobs fails, or memory is too little.
    ensures failed { HasSentence (codes "keep") (kept_sentence jobs.Failed) }
    ensures memory { HasSentence (codes "memory") (kept_sentence jobs.Memory) }
{}

/// The law of the fault lines of reports that are checked: each has the sentence of its rule, whatever it names. A call does nothing.
pub fn reports_have_their_sentence()
    ensures report { (place : ℕ) → AllHaveSentence (codes "check Report ") (check_sentence (checks.Report place)) }
    ensures psbt { (fault : PsbtFault) → AllHaveSentence (codes "check Psbt ") (check_sentence (checks.Psbt fault)) }
    ensures coin { (coin : OutPoint) → AllHaveSentence (codes "check Coin ") (check_sentence (checks.Coin coin)) }
    ensures pays { HasSentence (codes "check Pays") (check_sentence checks.Pays) }
    ensures log_form { (place : ℕ) → AllHaveSentence (codes "check LogForm ") (check_sentence (checks.LogForm place)) }
    ensures section { (index : ℕ) → AllHaveSentence (codes "check Section ") (check_sentence (checks.Section index)) }
    ensures log { (index : ℕ) (fault : LogFault) → AllHaveSentence (codes "check Log ") (check_sentence (checks.Log index fault)) }
    ensures answer { HasSentence (codes "check Answer") (check_sentence checks.Answer) }
{}

/// The law of the fault lines of PSBTs that are made whole: each has its sentence, whatever it names. A call does nothing.
pub fn inputs_have_their_sentence()
    ensures other_pairs { HasSentence (codes "input psbt OtherPairs") other_pairs_sentence }
    ensures missing { AllHaveSentence (codes "input psbt Missing ") missing_sentence }
    ensures other_output { AllHaveSentence (codes "input psbt OtherOutput ") other_output_sentence }
{}

/// The law of the fault lines of keys files, and of PSBTs to which keys are added: each has its sentence, whatever it names. A call
/// does nothing.
pub fn keys_have_their_sentence()
    ensures limit { HasSentence (codes "limit keys") (stop_sentence stops.KeysLimit) }

    // The form of the file.
    ensures not_json { HasSentence (codes "input keys NotJson") (keys_form_sentence fields.NotJson) }
    ensures kind { AllHaveSentence (codes "input keys Kind ") keys_kind_sentence }
    ensures member { AllHaveSentence (codes "input keys Member ") keys_member_sentence }
    ensures lacking { AllHaveSentence (codes "input keys Missing ") keys_missing_sentence }

    // Its scripts and their keys.
    ensures script { (index : ℕ) → AllHaveSentence (codes "input keys Script ") (keys_sentence (keys.Script index)) }
    ensures redeem { (index : ℕ) → AllHaveSentence (codes "input keys Redeem ") (keys_sentence (keys.Redeem index)) }
    ensures witness { (index : ℕ) → AllHaveSentence (codes "input keys Witness ") (keys_sentence (keys.Witness index)) }
    ensures internal { (index : ℕ) → AllHaveSentence (codes "input keys Internal ") (keys_sentence (keys.Internal index)) }
    ensures public { (index key : ℕ) → AllHaveSentence (codes "input keys Key ") (keys_sentence (keys.Key index key)) }
    ensures repeat { (index key : ℕ) → AllHaveSentence (codes "input keys RepeatKey ") (keys_sentence (keys.RepeatKey index key)) }
    ensures xpub { (index : ℕ) → AllHaveSentence (codes "input keys Xpub ") (keys_sentence (keys.Xpub index)) }
    ensures repeat_xpub { (index : ℕ) → AllHaveSentence (codes "input keys RepeatXpub ") (keys_sentence (keys.RepeatXpub index)) }

    // A PSBT that tells it otherwise.
    ensures global { AllHaveSentence (codes "input psbt KeyGlobal ") key_global_sentence }
    ensures input { AllHaveSentence (codes "input psbt KeyInput ") key_input_sentence }
    ensures output { AllHaveSentence (codes "input psbt KeyOutput ") key_output_sentence }
{}

/// The law of the fault lines of requests that `wide`, `share` or `sweep` doesn't pay: each has its sentence, whatever it counts. A
/// call does nothing.
pub fn unsuited_have_their_sentence()
    ensures not_wide { HasSentence (codes "input plan NotWide") (unsuited_sentence unsuited.NotWide) }
    ensures not_share { HasSentence (codes "input plan NotShare") (unsuited_sentence unsuited.NotShare) }
    ensures not_sweep { HasSentence (codes "input plan NotSweep") (unsuited_sentence unsuited.NotSweep) }
    ensures share_dust { (index : ℕ) → AllHaveSentence (codes "input plan ShareDust ") (unsuited_sentence (unsuited.ShareDust index)) }
    ensures too_heavy { (weight : ℕ) → AllHaveSentence (codes "input plan TooHeavy ") (unsuited_sentence (unsuited.TooHeavy weight)) }
{}

/// The law of the fault lines of a signed transaction's file: each has its sentence. A call does nothing.
pub fn signed_have_their_sentence()
    ensures limit { HasSentence (codes "limit tx") (stop_sentence stops.TxLimit) }
    ensures not_hex { HasSentence (codes "input tx Hex") (stop_sentence stops.NotHex) }
    ensures fault { (f : TxFault) → HasSentence (codes "input tx " ++ tx_fault_words f) (signed_sentence f) }
{}

/// The law of the fault lines of signed transactions that are judged: each has the sentence of its rule, whatever it counts. A
/// call does nothing.
pub fn settlings_have_their_sentence()
    // The report leaves its form, is of no payment, or doesn't tell what is spent and with which declared weight.
    ensures report { (place : ℕ) → AllHaveSentence (codes "settle Report ") (settle_sentence (settles.Report place)) }
    ensures not_funded { HasSentence (codes "settle NotFunded") (settle_sentence settles.NotFunded) }
    ensures psbt { (fault : PsbtFault) → AllHaveSentence (codes "settle Psbt ") (settle_sentence (settles.Psbt fault)) }
    ensures no_value { (index : ℕ) → AllHaveSentence (codes "settle NoValue ") (settle_sentence (settles.NoValue index)) }
    ensures foreign { (index : ℕ) → AllHaveSentence (codes "settle Foreign ") (settle_sentence (settles.Foreign index)) }

    // The transaction is another payment.
    ensures version { HasSentence (codes "settle Differs Version") (settle_sentence (settles.Differs parts.Version)) }
    ensures locktime { HasSentence (codes "settle Differs Locktime") (settle_sentence (settles.Differs parts.Locktime)) }
    ensures count { HasSentence (codes "settle Differs Count") (settle_sentence (settles.Differs parts.Count)) }
    ensures input { (index : ℕ) → AllHaveSentence (codes "settle Differs Input ") (settle_sentence (settles.Differs (parts.Input index))) }
    ensures output { (index : ℕ) → AllHaveSentence (codes "settle Differs Output ") (settle_sentence (settles.Differs (parts.Output index))) }

    // It isn't signed, weighs more than was declared or more than nodes relay, or pays too little.
    ensures unsigned { (index : ℕ) → AllHaveSentence (codes "settle Unsigned ") (settle_sentence (settles.Unsigned index)) }
    ensures heavier { (index declared weight : ℕ) → AllHaveSentence (codes "settle Heavier ") (settle_sentence (settles.Heavier index declared weight)) }
    ensures too_heavy { (weight : ℕ) → AllHaveSentence (codes "settle TooHeavy ") (settle_sentence (settles.TooHeavy weight)) }
    ensures below_rate { (fee : ℤ) (needed : ℕ) → AllHaveSentence (codes "settle BelowRate ") (settle_sentence (settles.BelowRate fee needed)) }
{}
