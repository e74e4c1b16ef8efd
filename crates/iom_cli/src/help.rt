/// The end of the help without a subcommand: the lines of a script, and an example.
pub const SCRIPT: &str = "\
Each line of a script is a step or a question; '#' starts a comment.
Numbers are decimal, or hex after 0x; DATA is 2 to 128 hex digits.

  load ADDR SIZE                the hart reads memory
  store ADDR SIZE VALUE         the hart writes memory
  reg read OFF SIZE             the hart reads a register of the IOMMU
  reg write OFF SIZE VALUE      the hart writes a register of the IOMMU
  dma read DID IOVA LEN         a device reads 1 to 64 bytes in a page
  dma write DID IOVA DATA       a device writes 1 to 64 bytes in a page
  cmd                           the command unit carries out a command
  settle ddtp, settle cq        a busy register settles: its last write acts
  settle fq                     (with delays; cq and fq: cqcsr and fqcsr)
  dev read N OFF SIZE           the hart reads a register of a block device
  dev write N OFF SIZE VALUE    the hart writes a register of a block device
  dev step N                    a block device goes on by one access
  show KIND ADDR                the item at a physical address; KIND is cmd,
                                fault, context, dir, pte, msi or u64
  place context I               place I of the context cache, the oldest 0
  place page I                  place I of the translation cache, the oldest 0
  trace I                       step I of the last 32, the oldest 0
  message I                     message I of the last 16, the oldest 0

Each line that isn't blank has one answer: the number or the bytes that were
read, done, idle, denied CAUSE, bus error, bad access, no device, misuse, the
item, the cache entry, the step with its answer, the message, or bad for any
other line.

cmd answers done even if it stops the command queue, and idle after that:
then reg read 72 4 (cqcsr) has bit 8 (cqmf) or 10 (cmd_ill). dev step N
answers done even if the device refuses a chain, and idle after that: then
dev read N 0x70 4 (Status) has bit 6. man rviommu has the registers.

Without a word, memory is 1 MiB at 0x80000000, all 0. An example:

  $ printf '%s\\n' 'reg write 16 8 1' 'dma write 5 0x80000000 aabb' \\
      'load 0x80000000 2' | rviommu
  done
  done
  0xbbaa";

/// The end of the help of `asm`.
pub const ASM: &str = "\
Each line of the text is one statement; '#' starts a comment. Numbers are
decimal, or hex after 0x.

  ram BASE SIZE                 the memory; the first statement
  at ADDR                       the physical address of the next data
  u64 VALUE ..                  one to eight words
  bytes HEX                     bytes
  cmd NAME KEY=NUMBER ..        a command: vma, gvma, fence or iodir
  context KEY=NUMBER ..         a device context
  dir ppn=NUMBER                an entry of a device directory
  pte ppn=NUMBER flags=NUMBER   an entry of a page table
  msi ppn=NUMBER                an entry of an MSI page table
  fault KEY=NUMBER ..           a fault record
  disk DID SECTORS [HEX]        a block device and the first bytes of its disk
  rodisk DID SECTORS [HEX]      a block device with a read-only disk
  capabilities [KEY=NUMBER ..]  a machine with Svnapot; sv57, sv57x4, svpbmt,
                                msi_flat, nl, s and delays are 0 or 1, vectors
                                is 1, 2 or 4, igs is 0, 1 or 2, without it 1
  window BASE SIZE              addresses beside memory where a write of four
                                bytes is a message

An example:

  $ printf '%s\\n' 'ram 0x80000000 0x1000' 'u64 7' > seven.asm
  $ rviommu asm seven.asm seven.image
  $ rviommu list seven.image u64 0x80000000 1
  u64 0x7";

/// The end of the help of `run`.
pub const RUN: &str = "\
The script has the lines of `rviommu --help`. An example:

  $ echo 'load 0x80000000 8' | rviommu run seven.image
  0x7";

/// The end of the help of `check`.
pub const CHECK: &str = "\
Each FILE is a script, and runs on a platform of its own. Without a FILE the
script is standard input. A single FILE without --image may be the image, if it
begins as one or is NAME.asm: then the script is standard input. A file NAME.asm
has the text of an image (`rviommu asm --help`), which is assembled first.

A line may end with its expected answer, in a comment '# => ANSWER'. It fails
if it has another answer; a line that expects none fails only if it is bad.
Prints each line that fails, and how many lines of each script passed and
failed; after files that were named, also their sum. A script has the lines of
`rviommu debug --help`.

With --stale, a line also fails if an access of a device, by dma, dev step or
dev run, used a cached translation or context that no longer matches the
tables in memory: an invalidation is missing. '# => ANSWER stale' wants this.
At the end of the script each entry of the caches fails that no longer matches;
with --at-fences also behind each line that carried out an IOFENCE.C.

With --settled, a line also fails if an access of a device is not settled: some
IOMMU that the standard allows could lead it to another address than the tables
in memory do, or deny it otherwise, whatever its caches keep and forget. At the
end of the script each earlier access fails that would not be settled now.
'# => ANSWER unsettled' wants an access that is not settled, as between a store
and its invalidation; '# => any unsettled' wants one with each answer.

With --ahead, which implies --settled, an IOMMU may also read ahead between any
two steps, by memory alone: each page, for each device, that an access or a line
'ahead' of the script names. For that the script is run twice. Line 0 is before
its first.

A comment that looks like an expected answer and is none, an expected answer
on a line that has no answer, and a script that expects none are noted, and
fail with --strict; so is with --settled an access that some IOMMU could lead by
another way to where the tables lead it, which no device sees.

The exit status is 1 if a line failed, and 3 if a file could not be read, is
no image, could not be run to its end, or not be written.

An example:

  $ echo 'load 0x80000000 8 # => 0x8' | rviommu check seven.image
  line 1: load 0x80000000 8 -> 0x7, wanted 0x8
  0 passed, 1 failed";

/// The end of the help of `debug`.
pub const DEBUG: &str = "\
The script has the lines of `rviommu --help` and these:

  reg read NAME                 a register of the IOMMU by its name, as ddtp
  reg write NAME VALUE
  dev read N NAME               a register of block device N, as Status
  dev write N NAME VALUE
  translate read DID IOVA       a device asks where its access would lead, and
  translate write DID IOVA      makes none: the address, or denied CAUSE
  queue cmd, queue fault        whether a queue is on, its head and tail, and
                                the reason why it stopped
  vectors                       which interrupt lines are high
  dump ADDR LEN                 1 to 64 bytes of memory
  disk N BYTE LEN               1 to 64 bytes of the disk of block device N
  dev show N                    what block device N does next
  dev run N MAX                 dev step N while it is done, MAX times at most
  cmd run MAX                   cmd while it is done, MAX times at most
  put ADDR ITEM ..              the hart stores an item of `asm --help`
  let NAME NUMBER               NAME stands for NUMBER, or a sum, in later lines
  stale read DID IOVA           whether the tables would lead an access as the
  stale write DID IOVA          caches do: same, or the address or the cause
  stale context I               whether the tables still give place I of a
  stale page I                  cache: same, or what they give
  walk read DID IOVA I          part I of the walk of an access, as if nothing
  walk write DID IOVA I         were cached, the first 0
  origin context I              the lines that filled place I of a cache, and
  origin page I                 the context of a translation
  why I                         the lines that cached what step I of the trace
                                used, and whether it was stale
  owed                          how many requests some IOMMU could still lead
                                elsewhere than the tables do, and the first
  free ADDR LEN                 how many entries that some IOMMU may hold name
                                a byte of that memory, and the first
  ahead DID IOVA LEN            for check --ahead: an IOMMU may also read ahead,
                                for that device, the pages of these bytes

The line `include FILE` stands for the text of FILE, which is named from the
folder of the script. If standard output is a terminal, bad is followed by its
reason. Without a FILE, or with -, the script is standard input. A FILE without
--image that begins as an image does, or is NAME.asm, is the image of that
script. A file NAME.asm has the text of an image, which is assembled first.
Where the words name no image, the script's first line may: `image FILE`.

An example:

  $ echo 'dump 0x80000000 4' | rviommu debug seven.image
  07000000";

/// The end of the help of `explain`.
pub const EXPLAIN: &str = "\
FILE and the lines of the script are those of `rviommu debug --help`. Each line
is printed with its number and its answer; if it makes several steps, each step
comes first.
Below each access of a device come the reasons for its answer:

  asks: ..      the access that a block device asks for
  caches: ..    the cached entries for it, and the lines that filled them
  walk: ..      the parts of its walk, if it was not fully cached
  warrant: ..   the lines that its translation comes from
  stale: ..     if it was stale, what served it and what the tables say
  unsettled: .. with --settled, if some IOMMU could lead it elsewhere, where,
                and the line that read what could still serve it

At the end it counts the accesses: granted, denied by cause, served from the
caches, and stale, with their lines; with --settled also those that are not
settled (`rviommu check --help`). With --only, the accesses of that kind alone
are printed before; unsettled implies --settled.

An example:

  $ echo 'dma read 5 0 1' | rviommu explain seven.image
  1: dma read 0x5 0x0 0x1 -> denied 256
      walk: ddtp mode=0x0 root=0x0
      walk: denied 256 iotval2=0x0
      warrant: none, it is denied
  accesses: 1
  granted: 0
  denied 256: 1
  from the caches: 0
  stale: 0";

/// The end of the help of `judge`.
pub const JUDGE: &str = "\
Each FILE is a trace of another IOMMU: what was done to it, and what was seen of
its answers. It is a script of `rviommu debug --help` on a platform of its own.
A comment says what was seen of a line's step, its answer, the physical address
at which the access began, or both:

  dma read 5 0x40202abc 4    # => 11223344
  dma read 5 0x40202abc 4    # => 11223344 at 0x80010abc
  dma write 5 0x40202abc 00  # => at 0x80010abc

Of a line without such a comment nothing was seen. A line fails if no IOMMU that
the standard allows could answer so after the lines before it, whatever its
caches keep and forget, and whenever up to the next IOFENCE.C its commands take
effect; what is allowed is printed, and the judgement goes on as if nothing of
the line had been seen. Nothing is read ahead of a step.

With --hidden, the IOMMU may carry out commands of its queue before each step
that the trace does not show; then lines 'cmd' may be left out.

At most 64 states of the IOMMU are followed. A line after which there would be
more fails as undecided, and those behind it are not judged. What was seen of a
line that is not one step is noted, as is a trace of which nothing was seen;
that fails with --strict.

The exit status is 1 if a line failed, and 3 if a file could not be read, is no
image, could not be judged to its end, or not be written.

An example:

  $ echo 'load 0x80000000 8 # => 0x8' | rviommu judge
  line 1: load 0x80000000 8: seen 0x8, allowed: 0x0
  0 passed, 1 failed";

/// The end of the help of `list`.
pub const LIST: &str = "\
ADDR and COUNT are decimal, or hex after 0x. Words that are not an item of this
kind are listed as u64. An example:

  $ rviommu list seven.image u64 0x80000000 2
  u64 0x7
  u64 0x0";

/// The end of the help of `upgrade`.
pub const UPGRADE: &str = "\
The new image starts the same platform. An image of version 4 stays as it is.
An example:

  $ rviommu upgrade seven.image new.image
  $ rviommu list new.image u64 0x80000000 1
  u64 0x7";
