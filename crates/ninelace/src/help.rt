//! What the program says of itself.

/// The name and the version.
pub const VERSION: &str = "ninelace 1.0";

/// What the program is, and its commands.
pub const COMMANDS: &str = "ninelace: payments of a wallet that only watches.

  ninelace pay --wallet FILE --blocks FILE --to ADDRESS=AMOUNT --fee-rate RATE
  ninelace sweep --wallet FILE --blocks FILE --to ADDRESS --fee-rate RATE
  ninelace coins WALLET BLOCKS --fee-rate RATE
  ninelace check WALLET BLOCKS REQUEST REPORT LOG
  ninelace complete PSBT WALLET BLOCKS KEYS
  ninelace settle --wallet FILE --request FILE --report FILE TX
  ninelace explain LINE

  --help                 this text; behind a command that of the command alone
  --version              the name and the version
  --json                 what is shown is JSON, for each command
  --progress             how far a long file is read; a terminal shows it anyway

No file that is there is written over. The status is 0 where it is done, and else as docs/FORMATS.md says.
";

/// The command that pays.
const PAY: &str = "ninelace pay --wallet FILE --blocks FILE --to ADDRESS=AMOUNT --fee-rate RATE

Makes a payment and shows it as a table, with its PSBT for a signer. An amount is
150000, 150000sat or 0.0015BTC; a rate is in satoshi per virtual byte. A flag and its
value are two words, or one as --fee-rate=12.

  --wallet FILE          the wallet file
  --blocks FILE          the block file
  --to ADDRESS=AMOUNT    who is paid and how much; as often as you like
  --to-script HEX=AMOUNT the same by a script in hex
                         =max with --method manual and each --coin: all that these
                         coins are worth less the fee, to one recipient alone
  --pay-file FILE        the lines ADDRESS,AMOUNT of this file are paid too, behind
                         the recipients of the words
  --keys FILE            the paths of keys and the scripts of this file stand in the
                         PSBT, as a hardware signer asks
  --fee-rate RATE        the fee rate; below 1 it wants --allow-low-rate
  --allow-low-rate       a fee rate below 1 is taken, which nodes do not relay
  --long-term RATE       the rate at which coins are thought to be spent later: 10
  --discard RATE         the rate at which change would be spent: 10
  --change-target AMOUNT the change that is aimed at: 50000
  --method METHOD        auto, changeless, weight, draw or manual: auto
  --coin TXID:INDEX      a coin that is spent in any case; as often as you like
  --tries NUMBER         how many tries the searches have: 100000
  --seed HEX             what draws are made from, 64 digits: drawn anew each time
  --bump TXID            the pending payment that is replaced, by its coins
  --locktime NUMBER      the lock time, a height or from 500000000 on a time: 0
  --max-fee AMOUNT       the greatest fee: the less of 1000000sat and a tenth of
                         what is paid
  --psbt FILE            the PSBT goes into this new file
  --log FILE             the log, which proves the choice, goes into this new file
  --report FILE          the report goes into this new file, for check and settle
  --request FILE         the request goes into this new file, for check and settle
  --group                the coins of one script are spent together
  --consolidate          with --method changeless: coins that are not needed are
                         spent too, where spending them later would cost more
  --fee-from-amount      the recipients bear the fee; the method is weight
  --stop                 nothing is paid where the tries end before the search
  --no-replace           the payment does not signal that it may be replaced
  --zero-conf            own outputs that wait for a block may be spent
  --unsafe               outputs that a stranger may take back may be spent
  --show-request         the request file is shown

For example:

  ninelace pay --wallet wallet.json --blocks blocks.dat --fee-rate 12.5 \\
      --to bc1qhwamhwamhwamhwamhwamhwamhwamhwame6jz2r=0.001BTC --psbt payment.psbt
";

/// The command that pays all coins.
const SWEEP: &str = "ninelace sweep --wallet FILE --blocks FILE --to ADDRESS --fee-rate RATE

Pays all coins that may be spent to one address, less the fee, and shows the payment as a
table, with its PSBT for a signer. There is no change.

  --wallet FILE          the wallet file
  --blocks FILE          the block file
  --to ADDRESS           who gets all; ADDRESS=AMOUNT pays nothing below that amount
  --to-script HEX        the same by a script in hex
  --fee-rate RATE        the fee rate; below 1 it wants --allow-low-rate
  --allow-low-rate       a fee rate below 1 is taken, which nodes do not relay
  --max-fee AMOUNT       the greatest fee: the less of 1000000sat and a tenth of
                         what is paid
  --psbt FILE            the PSBT goes into this new file
  --locktime NUMBER      the lock time, a height or from 500000000 on a time: 0
  --no-replace           the payment does not signal that it may be replaced
  --zero-conf            own outputs that wait for a block go too
  --unsafe               beside --zero-conf: outputs that a stranger may take back
                         go too
  --show-request         the request file is shown

For example:

  ninelace sweep --wallet wallet.json --blocks blocks.dat --fee-rate 12.5 \\
      --to bc1qhwamhwamhwamhwamhwamhwamhwamhwame6jz2r --psbt payment.psbt
";

/// The command that lists coins.
const COINS: &str = "ninelace coins WALLET BLOCKS --fee-rate RATE

Lists the last block, each payment that waits with its state, and each coin that may be
spent: its value, how deep it is, whose it is, and whether it is safe. With --fee-rate,
which may be left out, it also lists what a coin costs at this rate beside its input, if
the payments that wait below it pay less. Last it tells how many coins are confirmed, wait
safely, may be taken back by a stranger, are claimed by a payment that waits, are locked,
or are immature, and what they are worth together, in satoshi.

For example:

  ninelace coins wallet.json blocks.dat
  ninelace coins wallet.json blocks.dat --fee-rate 12.5
";

/// The command that checks a report.
const CHECK: &str = "ninelace check WALLET BLOCKS REQUEST REPORT LOG

Says whether a report and its log are true of the files: those that pay writes with
--request, --report and --log, and those of fund_cli. Each name may stand behind its flag
too, --wallet FILE and so on, in any order.

For example:

  ninelace check wallet.json blocks.dat request.json report.txt fund.log
";

/// The command that makes a PSBT whole.
const COMPLETE: &str = "ninelace complete PSBT WALLET BLOCKS KEYS

Shows the same PSBT with the whole transaction beside each output that it spends, which
some signers ask for. KEYS may be left out: a keys file with the paths of keys and the
scripts that a hardware signer asks for, which stand in the PSBT then. The PSBT file is
text in base64 or bytes.

For example:

  ninelace complete payment.psbt wallet.json blocks.dat keys.json
";

/// The command that looks at a signed transaction.
const SETTLE: &str = "ninelace settle --wallet FILE --request FILE --report FILE TX

Checks no signature. Says whether a signed transaction is the payment of a report, as
pay writes it with --report and fund_cli prints it, and pays the rate of its request by
what it truly weighs. Shows what each input weighs and was declared to weigh, in weight
units (WU), the fee and its rate, and by how much the inputs together weigh less than
declared.

  --wallet FILE          the wallet file
  --request FILE         the request file
  --report FILE          the report of the payment
  TX                     the file of the signed transaction: in hex, or a PSBT whose
                         inputs are all signed and final, as base64 or as bytes

For example:

  ninelace settle --wallet wallet.json --request request.json --report report.txt signed.txt
";

/// The command that explains a line.
const EXPLAIN: &str = "ninelace explain LINE

Says what may be the cause of a line that stops a command, and what to do; or what the
status of this number means.

For example:

  ninelace explain 'fault input wallet NotJson'
  ninelace explain 11
";

/// What the program says of each command.
pub const ALL: [&str; 7] = [PAY, SWEEP, COINS, CHECK, COMPLETE, SETTLE, EXPLAIN];

/// What the program says of one command; none where there is none of this name.
pub fn of_command(name: &str) -> Option<&'static str> {
    match name {
        "pay" => Some(PAY),
        "sweep" => Some(SWEEP),
        "coins" => Some(COINS),
        "check" => Some(CHECK),
        "complete" => Some(COMPLETE),
        "settle" => Some(SETTLE),
        "explain" => Some(EXPLAIN),
        _ => None,
    }
}
