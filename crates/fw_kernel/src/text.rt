//! The kernel as its source.

/// The assembler text of the kernel. Its labels have the places that the constants of the same names give.
pub const SOURCE: &str = r"
; The keyboard's firmware: it reads the columns, makes the power-on test, keeps the queue of codes and the repeating key,
; sends and receives frames, obeys the system's commands and puts the lights.
;
; The work of a tick is the service of the timer's interrupt, in register bank 1. It makes no call, and no register
; lives from tick to tick: what does is in the cells below, which power-on makes 00 but for TEST, LAST and RATE. Numbers
; at the right are cycles since the tick's start. Each block is headed by what it needs beside the cells that it names,
; what it leaves to later blocks (every other register is free), and its cycles, from its head to the next head.
;
; Data memory (hexadecimal)
;   08, 09  the service's way back: counter and status of the main program
;   18..1F  R0..R7    working registers of a tick
;   20..2B  HELD      byte c: the keys that are down in column c, row r at bit r
;   30..3B  CHANGED   byte c: the keys whose state changed in this tick
;   40      REPLYDUE  0 no reply, 1 a reply is due, 3 the reply to a reset is due
;   41      AADUE     0, or 1 where AA is due
;   42      COUNT     bits 0..4 the queue's length, bit 7 the overrun mark
;   43      HEAD      the ring's place of the queue's first byte is 70 + HEAD modulo 16
;   44      STARTED   1 where the F0 of a break has gone and its code is still in the queue
;   45      TEST      ticks left of the power-on test
;   46      MODE      0 Ready, 1 WantRate, 2 WantLights
;   47      DISABLED  0, or 1 where scanning is disabled
;   48      RINDEX    place of the code that repeats, in page 3: the key's place, or 61 more in the Fn layer
;   49      RATE      rate byte
;   4A      RCOUNT    ticks until the key repeats, 0 where nothing repeats
;   4B      REPLY     the reply that is due
;   4C      LAST      last byte sent that wasn't FE
;   4D      LIGHTS    bits 4..6: Scroll, Num, Caps are lit
;   4E      FN        FF where the Fn key is down, else 00
;   50..5B  LAYER     byte c: bit r is 1 where the key of column c, row r was last pressed in the Fn layer
;   60..6B  PENDING   byte c: the keys that the last reading alone showed otherwise than HELD; 00 without a debounce
;   70..7F  ring      the queue's bytes
;
; F0: scanning is on; set by block scan alone.
; F1: the controller holds the clock; cleared by block tested, set by block inhibited, nowhere else.
; P1: the column, in its low digit.  P2: bit 0 clock, bit 1 data (0 pulls), bits 4..6 lights (0 lights).
; T0: the clock wire.  T1: the data wire.

HELD     EQU 20H
CHANGED  EQU 30H
REPLYDUE EQU 40H
AADUE    EQU 41H
COUNT    EQU 42H
STARTED  EQU 44H
TEST     EQU 45H
MODE     EQU 46H
DISABLED EQU 47H
RINDEX   EQU 48H
RATE     EQU 49H
RCOUNT   EQU 4AH
REPLY    EQU 4BH
LAST     EQU 4CH
LIGHTS   EQU 4DH
FN       EQU 4EH
BACK     EQU 0BBH           ; where `blank` is in page 2

; -- power-on, and the way back of a processor whose counter was upset: the free places after the last block are NOP, so
; from there it comes to 000 in any state. Interrupts and the timer are switched off; the lower half and bank 0 are selected.
; needs: nothing. leaves: no interrupt but one that is in service; bank 0; the timer stands still.
; cycles: 7.
        ORG 0
        DIS TCNTI           ; 0: a request that is latched is cleared, too
        DIS I               ; 1
        STOP TCNT           ; 2
        SEL MB0             ; 3
        SEL RB0             ; 4
        JMP restart         ; 5

; -- tick: the timer's interrupt. The next overflow is 2,048 cycles after the last, since the prescaler goes on.
; needs: nothing. leaves: R0 = HELD, R1 = CHANGED, R3 = 12; the first column is selected.
; cycles: 16.
        ORG 7
tick:   MOV A,#0C0H         ; 0: 64 counts of 32 cycles
        MOV T,A             ; 2
        MOV R0,#HELD        ; 3
        MOV R1,#CHANGED     ; 5
        MOV R3,#12          ; 7
        MOV A,R0            ; 9
        OUTL P1,A           ; 10
        NOP                 ; 12
        NOP
        NOP
        NOP

; -- read: the twelve columns. Pass c: HELD follows the rows, CHANGED gets what is new.
; needs: R0, R1, R3 of tick. leaves: HELD, CHANGED.
; cycles: 16 a pass.
read:   INS A,BUS           ; 16+16c
        CPL A               ; 18
        XCH A,@R0           ; 19
        XRL A,@R0           ; 20
        MOV @R1,A           ; 21
        INC R0              ; 22
        INC R1              ; 23
        MOV A,R0            ; 24: its low digit is the next column
        OUTL P1,A           ; 25
        NOP                 ; 27
        NOP
        NOP
        DJNZ R3,read        ; 30

; -- offer: what the tick before left to be sent: the reply, else AA, else the queue's first byte, else 00 for the mark.
; needs: nothing. leaves: R4 the byte; R5 = 0 where nothing is offered.
; cycles: 20 on each way to lamps, three of which go by o_due or o_mark.
offer:  MOV R1,#REPLYDUE    ; 208
        MOV A,@R1           ; 210
        INC R1              ; 211: AADUE
        ORL A,@R1           ; 212
        JNZ o_due           ; 213
        INC R1              ; 215: COUNT
        MOV A,@R1           ; 216
        MOV R5,A            ; 217
        ADD A,R5            ; 218: 0 where the queue is empty, marked or not
        JZ o_mark           ; 219
        INC R1              ; 221: HEAD
        MOV A,@R1           ; 222
        ORL A,#70H          ; 223
        MOV R1,A            ; 225
        MOV A,@R1           ; 226
        MOV R4,A            ; 227

; -- lamps: puts the lights; both wires stay released.
; needs: LIGHTS. leaves: nothing.
; cycles: 6.
lamps:  MOV R1,#LIGHTS      ; 228
        MOV A,@R1           ; 230
        CPL A               ; 231
        OUTL P2,A           ; 232

; -- tested: does the power-on test run?
; needs: nothing. leaves: F1 = 0; for testing: A the ticks left, R1 = TEST.
; cycles: 6.
tested: CLR F1              ; 234
        MOV R1,#TEST        ; 235
        MOV A,@R1           ; 237
        JNZ testing         ; 238

; -- looks: at the clock, at data. Both are looked at in every tick; where the test runs, by block testing. What a frame
; needs is made ready before.
; needs: LIGHTS, R4 of offer. leaves: R2 the latch with data low; R6 the byte. Goes to pulled, got or send.
; cycles: 18 to pulled, 20 to got and send.
looks:  MOV R1,#LIGHTS      ; 240
        MOV A,@R1           ; 242
        CPL A               ; 243
        ANL A,#0FDH         ; 244
        MOV R2,A            ; 246
        MOV A,R4            ; 247
        MOV R6,A            ; 248
        MOV R0,#2           ; 249
l_on:   DJNZ R0,l_on        ; 251 to 254
        NOP                 ; 255
        JNT0 pulled         ; 256
        JNT1 got            ; 258

; -- send: data falls for the start bit, and the parity is made. From the look at 256 on the clock is looked at every 24
; cycles at least, so a pull of 24 cycles is seen; where it is seen before the first fall no frame begins.
; needs: R4, R5 of offer; R2, R6 of looks. leaves: R2, R4, R6; C the parity bit; R1 = R2; R3 = 10. Goes to cut where the
; clock is low.
; cycles: 3 to idle, 10 or 28 to cut, else 28.
send:   MOV A,R5            ; 260
        JZ idle             ; 261
        MOV A,R2            ; 263
        MOV R1,A            ; 264
        MOV R3,#10          ; 265
        NOP                 ; 267
        JNT0 cut            ; 268
        OUTL P2,A           ; 270: data falls
        MOV A,R4            ; 272
        SWAP A              ; 273
        XRL A,R4            ; 274
        MOV R0,A            ; 275
        RR A                ; 276
        RR A                ; 277
        XRL A,R0            ; 278
        MOV R0,A            ; 279
        RR A                ; 280
        XRL A,R0            ; 281: FF where the number of ones is odd, else 00
        CPL A               ; 282
        RRC A               ; 283: the parity bit in C
        NOP                 ; 284
        NOP
        JNT0 cut            ; 286

; -- s_cell: cell k of a sent frame: the clock falls upon bit k, rises and is looked at, bit k+1 is put, and, but for the
; tenth cell, the clock is looked at again: once it has risen for the tenth time the frame is sent to its end. OUTL lets
; the clock rise: on a part it writes a cycle before ANL and ORL do, so the wire has longer to rise until the look. From
; look to look there is no loop, so how far they are apart is seen from the rows alone.
; needs: R1 the latch with bit k, R2, R3, R6, C. leaves: the same for cell k+1; R4 is kept. Goes to cut where the clock
; is low.
; cycles: 20 or 30 to cut, else 32.
s_cell: ANL P2,#0FEH        ; 288+32k
        MOV A,R6            ; 290
        RRC A               ; 291
        MOV R6,A            ; 292
        CLR A               ; 293
        RLC A               ; 294
        RL A                ; 295: the next bit at the data wire's place
        ORL A,R2            ; 296
        CPL C               ; 297: C was 0; ones follow the parity bit, the first is the stop bit
        XCH A,R1            ; 298: R1 the latch with bit k+1, A that with bit k
        NOP                 ; 299
        NOP
        NOP
        NOP
        NOP
        OUTL P2,A           ; 304
        JNT0 cut            ; 306
        MOV A,R1            ; 308
        OUTL P2,A           ; 309
        NOP                 ; 311
        NOP
        NOP
        DJNZ R3,s_look      ; 314
        NOP                 ; 604
        NOP
        NOP
        NOP

; -- s_stop: the eleventh fall; the frame ends.
; needs: nothing; R4 is kept.
; cycles: 20.
s_stop: ANL P2,#0FEH        ; 608
        MOV R0,#6           ; 610
s_end:  DJNZ R0,s_end       ; 612 to 623
        ORL P2,#1           ; 624
        JMP sent            ; 626

; -- cut: the controller has pulled the clock; both wires are released, nothing was sent.
; needs: nothing. leaves: nothing.
; cycles: 4.
cut:    ORL P2,#3
        JMP scan

; -- inhibited, idle: the tick has no frame.
; needs: nothing. leaves: F1.
; cycles: inhibited 1, idle 2.
inhibited: CPL F1
idle:   JMP scan

; -- got: the controller asks to send.
; needs: nothing. leaves: nothing.
; cycles: 2.
got:    JMP receive         ; 260

; -- o_due, o_reply, o_mark: the other ways of offer; each comes to lamps at 228.
; needs: for o_due A, not 0. leaves: R4, R5 as offer.
; cycles: o_due 6 to 13, o_reply 7, o_mark 7.
        ORG 0A8H
o_due:  MOV R5,A            ; 215
        MOV R1,#REPLYDUE    ; 216
        MOV A,@R1           ; 218
        JNZ o_reply         ; 219
        MOV R4,#0AAH        ; 221
        NOP                 ; 223
        NOP
        NOP
        JMP lamps           ; 226
o_reply: MOV R1,#REPLY      ; 221
        MOV A,@R1           ; 223
        MOV R4,A            ; 224
        NOP                 ; 225
        JMP lamps           ; 226
o_mark: MOV R4,#0           ; 221
        NOP                 ; 223
        NOP
        NOP
        JMP lamps           ; 226

; -- pulled: the controller holds the clock; data is looked at without an effect.
; needs: nothing. leaves: nothing.
; cycles: 4.
        ORG 0C4H
pulled: JT1 p_seen          ; 258
p_seen: JMP inhibited       ; 260

; -- testing: the test runs: both looks are made without an effect, and the test's ticks fall; with the last AA is due.
; needs: A the ticks left, R1 = TEST. leaves: TEST, AADUE.
; cycles: 26 to 30.
testing: MOV R0,#7          ; 240
e_on:   DJNZ R0,e_on        ; 242 to 255
        JT0 e_clock         ; 256
e_clock: JT1 e_data         ; 258
e_data: DEC A               ; 260
        MOV @R1,A           ; 261
        JNZ idle            ; 262
        MOV R1,#AADUE       ; 264
        MOV @R1,#1          ; 266
        JMP scan            ; 268

; -- s_look: the second look of a cell that isn't the tenth.
; needs: nothing. leaves: nothing. Goes to cut where the clock is low.
; cycles: 2 to cut, else 4.
s_look: JNT0 cut            ; 316+32k
        JMP s_cell          ; 318+32k

; -- start: power-on. Times are the cycles since reset; the first overflow comes with the end of cycle 4,093.
; needs: the state that blank leaves; R0 of power. leaves: register bank 1, the timer's interrupt enabled.
; cycles: 3 to power; from begin 11.
        ORG 0F2H
start:  SEL RB1             ; 413
        JMP power           ; 414
begin:  MOV A,#8EH          ; 435: 114 counts of 32 cycles until the first overflow
        MOV T,A             ; 437
pause:  DJNZ R0,pause       ; 438 to 443
        EN TCNTI            ; 444: the overflow asks for the tick
        STRT T              ; 445: the prescaler is 0 when cycle 446 begins

; -- wait: the main program, between ticks.
wait:   JMP wait

; -- receive: data is looked at again just before the first cell: a request lasts, and what doesn't is none.
; needs: nothing. leaves: R3 = 8. Goes to none where data is high.
; cycles: 26.
receive: MOV R3,#8          ; 262
        MOV R0,#10          ; 264
r_on:   DJNZ R0,r_on        ; 266 to 285
        JT1 none            ; 286

; -- r_cell: cell k of a received frame, k = 0..7: data bit k comes into bit 7 of A.
; needs: R3; A the bits so far. leaves: A the byte, after the eighth.
; cycles: 32.
r_cell: ANL P2,#0FEH        ; 288+32k
        CLR C               ; 290
        RRC A               ; 291
        MOV R0,#5           ; 292
r_low:  DJNZ R0,r_low       ; 294 to 303
        ORL P2,#1           ; 304
        JT1 r_one           ; 306
        JMP r_bit           ; 308
r_one:  ORL A,#80H          ; 308
r_bit:  MOV R0,#3           ; 310
r_high: DJNZ R0,r_high      ; 312 to 317
        DJNZ R3,r_cell      ; 318

; -- r_parity: the parity bit is weighed against the byte.
; needs: A the byte. leaves: R4 the byte; R5 = FF where the parity is right, else 00.
; cycles: 32.
r_parity: ANL P2,#0FEH      ; 544
        MOV R4,A            ; 546
        SWAP A              ; 547
        XRL A,R4            ; 548
        MOV R1,A            ; 549
        RR A                ; 550
        RR A                ; 551
        XRL A,R1            ; 552
        MOV R1,A            ; 553
        RR A                ; 554
        XRL A,R1            ; 555: FF where the number of ones is odd, else 00
        MOV R0,#1           ; 556
p_low:  DJNZ R0,p_low       ; 558
        ORL P2,#1           ; 560
        JT1 p_one           ; 562
        JMP p_bit           ; 564
p_one:  CPL A               ; 564
        NOP                 ; 565
p_bit:  MOV R5,A            ; 566
        MOV R0,#3           ; 567
p_high: DJNZ R0,p_high      ; 569 to 574
        NOP                 ; 575

; -- r_stop: the cell of the stop bit, which the controller always releases. Data is pulled for the eleventh fall, so it
; is low before the clock is.
; needs: nothing; R4, R5 are kept.
; cycles: 32.
r_stop: ANL P2,#0FEH        ; 576
        MOV R0,#6           ; 578
t_low:  DJNZ R0,t_low       ; 580 to 591
        ORL P2,#1           ; 592
        JT1 t_on            ; 594: read, without an effect
t_on:   ANL P2,#0FDH        ; 596: data falls
        MOV R0,#4           ; 598
t_high: DJNZ R0,t_high      ; 600 to 607

; -- r_ack: the eleventh fall, with data low; the frame ends, and both wires are released.
; needs: nothing; R4, R5 are kept.
; cycles: 18.
r_ack:  ANL P2,#0FEH        ; 608
        MOV R0,#6           ; 610
r_end:  DJNZ R0,r_end       ; 612 to 623
        ORL P2,#3           ; 624

; -- command: FA is the reply unless a later line says otherwise.
; needs: R4 the byte, R5 its parity. Goes on to waiting, ready or scan.
; cycles: 16 to 19.
command: MOV R1,#REPLYDUE   ; 626
        MOV @R1,#1
        MOV R1,#REPLY
        MOV @R1,#0FAH
        MOV A,R5
        JZ refuse
        MOV R1,#MODE
        MOV A,@R1
        JZ ready
        MOV A,R4
        JB7 waiting

; -- parameter: of the rate or of the lights.
; needs: R4 below 80, R1 = MODE, MODE 1 or 2. leaves: RATE or LIGHTS, MODE.
; cycles: 11 to 14.
parameter: MOV A,@R1
        MOV @R1,#0
        JB0 setrate
        MOV A,R4
        SWAP A
        ANL A,#70H
        MOV R1,#LIGHTS
        MOV @R1,A
        JMP scan
setrate: MOV A,R4
        MOV R1,#RATE
        MOV @R1,A
        JMP scan

; -- waiting: no parameter: a command ends the wait, another byte is refused.
; needs: R4 from 80 on, A = R4, R1 = MODE. leaves: MODE.
; cycles: 6 to 10.
waiting: ADD A,#13H
        JNC refuse
        MOV @R1,#0

; -- ready: which command? Bytes below ED are refused, bytes without a row do nothing.
; needs: R4.
; cycles: 11 to 36.
ready:  MOV A,R4
        ADD A,#13H
        JNC refuse
        JZ c_lights         ; ED
        DEC A
        JZ c_echo           ; EE
        ADD A,#0FBH
        JZ c_rate           ; F3
        DEC A
        JZ c_enable         ; F4
        DEC A
        JZ c_disable        ; F5
        DEC A
        JZ c_default        ; F6
        ADD A,#0F8H
        JZ c_resend         ; FE
        DEC A
        JZ c_reset          ; FF
        JMP scan
c_lights: MOV R1,#MODE
        MOV @R1,#2
        JMP scan
c_echo: MOV R1,#REPLY
        MOV @R1,#0EEH
        JMP scan
c_rate: MOV R1,#MODE
        MOV @R1,#1
        JMP scan
c_enable: MOV R1,#DISABLED
        MOV @R1,#0
        JMP clear
c_disable: MOV R1,#DISABLED
        MOV @R1,#1
c_default: JMP default
c_resend: MOV R1,#LAST
        MOV A,@R1
        MOV R1,#REPLY
        MOV @R1,A
        JMP scan
c_reset: MOV R1,#REPLYDUE
        MOV @R1,#3
        JMP scan
refuse: MOV R1,#REPLY
        MOV @R1,#0FEH
        JMP scan

; -- none: there was no request; the tick has no frame.
; needs: nothing. leaves: nothing.
; cycles: 2.
none:   JMP scan            ; 288

; -- sent: the byte is the last one sent, except FE.
; needs: R4. leaves: LAST; R4 is kept.
; cycles: 5 to 9.
        ORG 200H
sent:   MOV A,R4
        XRL A,#0FEH
        JZ drop
        MOV R1,#LAST
        MOV A,R4
        MOV @R1,A

; -- drop: what was offered goes: the reply, else AA, else the queue's first byte, else the mark.
; needs: R4. leaves: REPLYDUE, AADUE, COUNT, HEAD, STARTED.
; cycles: 9 to 31.
drop:   MOV R1,#REPLYDUE
        MOV A,@R1
        JNZ d_reply
        INC R1              ; AADUE
        MOV A,@R1
        JNZ gone
        INC R1              ; COUNT
        MOV A,@R1
        ADD A,@R1
        JZ gone             ; the mark alone: COUNT was 80
        MOV A,@R1
        DEC A
        MOV @R1,A
        INC R1              ; HEAD
        INC @R1
        INC R1              ; STARTED
        MOV A,R4
        XRL A,#0F0H
        JNZ gone            ; not the F0 of a break
        MOV A,@R1
        XRL A,#1
        MOV @R1,A
        JMP scan
gone:   MOV @R1,#0
        JMP scan
d_reply: MOV @R1,#0
        JB1 heal            ; FA to a reset: REPLYDUE was 3
        JMP scan

; -- reset: all as at power-on but for the queue, the lights off, the test to come.
; needs: nothing. leaves: TEST, MODE, DISABLED, AADUE, LAST, LIGHTS; goes on to default.
; cycles: 22.
reset:  MOV R1,#TEST
        MOV @R1,#64
        INC R1              ; MODE
        MOV @R1,#0
        INC R1              ; DISABLED
        MOV @R1,#0
        MOV R1,#AADUE
        MOV @R1,#0
        MOV R1,#LAST
        MOV @R1,#0AAH
        MOV R1,#LIGHTS
        MOV @R1,#0

; -- default: the layout's rate.
; needs: nothing. leaves: RATE; goes on to clear.
; cycles: 7.
default: MOV A,#60H
        MOVP3 A,@A
        MOV R1,#RATE
        MOV @R1,A

; -- clear: nothing repeats; the queue keeps the second byte of a started break alone.
; needs: a started break has its code first in the queue. leaves: RCOUNT, COUNT.
; cycles: 10.
clear:  MOV R1,#RCOUNT
        MOV @R1,#0
        MOV R1,#STARTED
        MOV A,@R1
        MOV R1,#COUNT
        MOV @R1,A

; -- scan: is scanning on? Where it is off nothing repeats.
; needs: TEST, MODE, DISABLED. leaves: F0; RCOUNT.
; cycles: 11 to 16.
scan:   CLR F0
        MOV R1,#TEST
        MOV A,@R1
        INC R1              ; MODE
        ORL A,@R1
        INC R1              ; DISABLED
        ORL A,@R1
        JZ on
        MOV R1,#RCOUNT
        MOV @R1,#0
        JMP settle
on:     CPL F0

; -- repeat: the count of the repeating key falls.
; needs: RCOUNT, F1. leaves: RCOUNT; goes to fire at 0.
; cycles: 7 to 11.
repeat: MOV R1,#RCOUNT
        MOV A,@R1
        JZ rest             ; nothing repeats
        DEC A
        MOV @R1,A
        JNZ rest

; -- fire: the count becomes the period; the make is entered unless the meeting was Inhibited.
; needs: RATE, RINDEX, F1. leaves: RCOUNT, R2 the code.
; cycles: 15 to 19.
fire:   MOV R1,#RATE
        MOV A,@R1
        ANL A,#1FH
        ADD A,#0D2H
        MOVP3 A,@A          ; the period
        INC R1              ; RCOUNT
        MOV @R1,A
        JF1 rest
        MOV R1,#RINDEX
        MOV A,@R1
        MOVP3 A,@A
        MOV R2,A

; -- again: enters the byte R2, as the block enter.
; needs: R2. leaves: COUNT, the ring.
; cycles: 13 to 17.
again:  MOV R1,#COUNT
        MOV A,@R1
        ADD A,#0F0H
        JC a_over           ; 16 bytes or marked
        INC @R1
        INC R1              ; HEAD
        ADD A,@R1
        ORL A,#70H
        MOV R1,A
        MOV A,R2
        MOV @R1,A
rest:   JMP settle
a_over: MOV A,@R1
        ORL A,#80H
        MOV @R1,A
        JMP settle

; -- power: what isn't 00 at power-on. Times are the cycles since reset.
; needs: nothing. leaves: TEST, LAST, RATE, R0.
; cycles: 19.
power:  MOV R1,#TEST        ; 416
        MOV @R1,#64         ; 418
        MOV R1,#LAST        ; 420
        MOV @R1,#0AAH       ; 422
        MOV A,#60H          ; 424
        MOVP3 A,@A          ; 426
        MOV R1,#RATE        ; 428
        MOV @R1,A           ; 430
        MOV R0,#3           ; 431
        JMP begin           ; 433

; -- restart: both ports are FF; RETR ends the service of an interrupt, if one is marked, with a way back to blank that is
; written here.
; needs: bank 0. leaves: both latches FF, the flags clear, nothing on the stack, no service.
; cycles: 18.
restart: MOV A,#0FFH        ; 7
        OUTL P2,A           ; 9: both wires are let go
        OUTL P1,A           ; 11
        MOV R0,#8           ; 13: the stack's first entry
        MOV @R0,#BACK       ; 15: the counter's low byte
        INC R0              ; 17
        MOV @R0,#2          ; 18: its page, with a clear status
        MOV A,#1            ; 20
        MOV PSW,A           ; 22: one entry is on the stack
        RETR                ; 23

; -- blank: data memory is cleared. A part that is switched on holds anything in it, in A and in the carries.
; needs: bank 0. leaves: A, both carries and all of data memory 0.
; cycles: 388.
blank:  MOV R0,#7FH         ; 25
        CLR A               ; 27
        ADD A,#0            ; 28: no carry
fill:   MOV @R0,A           ; 30 + 3 for each cell, from the last to 01
        DJNZ R0,fill        ; R0, which is cell 00, ends at 0
        JMP start           ; 411

; -- heal: a reset also makes right what a flipped bit may have left: STARTED is 0 or 1, and FN follows the Fn key, as
; it was held before this tick's edges.
; needs: HELD, CHANGED. leaves: STARTED; goes on to fn_held.
; cycles: 9. With fn_held it takes an even number, so the loop at wait, and each later tick, comes when it came without it.
heal:   MOV R1,#STARTED
        MOV A,@R1
        ANL A,#1
        MOV @R1,A
        NOP
        JMP fn_held

; -- tables: behind the layout's, the delays by bits 5 and 6 of the rate, the periods by bits 0 to 4, in ticks.
        ORG 3CEH
        DB 49, 98, 146, 195
        DB 7, 7, 8, 9, 10, 11, 11, 12
        DB 13, 15, 16, 18, 20, 21, 23, 24
        DB 26, 29, 33, 36, 39, 42, 46, 49
        DB 52, 59, 65, 72, 78, 85, 91, 98

; -- the place 3F2 is the layout's too: 1 with a debounce, else 0.

; -- the bit of a row, by the rows left.
        ORG 401H
        DB 80H, 40H, 20H, 10H, 8, 4, 2, 1

; -- edges: the columns in order, then the tick ends.
; needs: nothing. leaves: R0 = CHANGED.
; cycles: 2.
edges:  MOV R0,#CHANGED

; -- column: pass c.
; needs: R0 = CHANGED + c. leaves: R0 one more; for moved: A the changes, R0.
; cycles: 3 to 4.
column: MOV A,@R0
        JNZ moved
        INC R0

; -- more: is there another column?
; needs: R0. leaves: R0.
; cycles: 5 to 7.
more:   MOV A,R0
        XRL A,#3CH
        JNZ column
done:   RETR
        ORG 416H

; -- moved: what the rows of a changed column need.
; needs: R0 = CHANGED + c, A the changes. leaves: R4 the changes, R7 the held keys, R6 the place of row 0.
; cycles: 14.
moved:  MOV R4,A
        MOV A,R0
        XRL A,#10H          ; HELD + c
        MOV R1,A
        MOV A,@R1
        MOV R7,A
        MOV A,R0
        RL A
        RL A
        RL A
        ANL A,#78H          ; 8c
        MOV R6,A

; -- layers: and the column's layers and make-only keys.
; needs: R0 = CHANGED + c. leaves: R5 the layers, R0 the make-only keys.
; cycles: 12.
layers: MOV A,R0
        ADD A,#20H          ; LAYER + c
        MOV R1,A
        MOV A,@R1
        MOV R5,A
        MOV A,R0
        ADD A,#91H          ; 3C1 + c
        MOVP3 A,@A
        MOV R0,A

; -- rows: the rows of a changed column in order.
; needs: R4. leaves: A the changes, R3 = 8.
; cycles: 3.
rows:   MOV R3,#8
        MOV A,R4

; -- row: pass r: A the changes turned right by r, R6 the place, R3 = 8 - r.
; needs: A, R3, R6; R0, R5, R7. leaves: the same for pass r + 1; after the eighth R5 and R6 = 8c + 8.
; cycles: 3 to 8.
row:    RR A
        JB7 edge
        INC R6
        DJNZ R3,row
        JMP foot

; -- edge: which way?
; needs: A the turned changes, R3, R7. leaves: R4 the turned changes, R2 the row's bit.
; cycles: 8.
edge:   MOV R4,A
        MOV A,R3
        MOVP A,@A
        MOV R2,A
        ANL A,R7
        JZ release

; -- press: the layer is that of the Fn key now. A place without a code is the Fn key's.
; needs: R2 the row's bit, R5, R6, FN. leaves: R5, R2 the index, A the code.
; cycles: 16 to 20.
press:  MOV R1,#FN
        MOV A,@R1
        XRL A,R5
        ANL A,R2
        XRL A,R5
        MOV R5,A            ; bit r is that of FN
        MOV A,@R1
        ANL A,#61H
        ADD A,R6
        MOV R2,A
        MOVP3 A,@A
        JZ fn_down
        JF0 begins
        JMP entered

; -- begins: this key repeats, after the delay.
; needs: A the code, R2 the index, RATE. leaves: RINDEX, RCOUNT, R2 the code.
; cycles: 16.
begins: XCH A,R2
        MOV R1,#RINDEX
        MOV @R1,A
        INC R1              ; RATE
        MOV A,@R1
        SWAP A
        RR A
        ANL A,#3
        ADD A,#0CEH
        MOVP3 A,@A          ; the delay
        INC R1              ; RCOUNT
        MOV @R1,A

; -- enter: the byte R2 enters where it fits and there is no mark; else the mark is set.
; needs: R2, R4. leaves: COUNT, the ring.
; cycles: 13 to 17.
enter:  MOV R1,#COUNT
        MOV A,@R1
        ADD A,#0F0H
        JC over             ; 16 bytes or marked
        INC @R1
        INC R1              ; HEAD
        ADD A,@R1           ; F0 leaves the low digit
        ORL A,#70H
        MOV R1,A
        MOV A,R2
        MOV @R1,A
        JMP entered
over:   MOV A,@R1
        ORL A,#80H
        MOV @R1,A
        JMP entered

; -- fn_down, fn_up: the Fn key.
; needs: R4. leaves: FN.
; cycles: fn_down 6, fn_up 6.
fn_down: MOV R1,#FN
        MOV @R1,#0FFH
        JMP entered
fn_up:  MOV R1,#FN
        MOV @R1,#0
        JMP entered

; -- release: the layer is that of the press.
; needs: R2 the row's bit, R5, R6. leaves: R2 the index, A the code.
; cycles: 12 to 16.
release: MOV A,R5
        ANL A,R2
        JNZ upper
        JMP lower
upper:  MOV A,#61H
lower:  ADD A,R6
        MOV R2,A
        MOVP3 A,@A
        JZ fn_up
        JF0 ends
        JMP entered

; -- ends: if this key is the repeating one, nothing repeats any more. Both ways take 10 cycles.
; needs: A the code, R2 the index. leaves: RCOUNT, R2 the code.
; cycles: 10.
ends:   XCH A,R2
        MOV R1,#RINDEX
        XRL A,@R1
        JNZ other
        MOV R1,#RCOUNT
        MOV @R1,#0

; -- silent: has this key a break?
; needs: R3, R0. leaves: R2.
; cycles: 6 to 8.
silent: MOV A,R3
        MOVP A,@A
        ANL A,R0
        JZ enter2
        JMP entered
other:  NOP
        NOP
        JMP silent

; -- enter2: F0 and the byte R2 enter where both fit and there is no mark; else the mark is set.
; needs: R2, R4. leaves: COUNT, the ring.
; cycles: 13 to 23.
enter2: MOV R1,#COUNT
        MOV A,@R1
        ADD A,#0F1H
        JC over             ; 15 bytes or more, or marked
        INC @R1
        INC @R1
        INC R1              ; HEAD
        DEC A
        ADD A,@R1
        ORL A,#70H
        MOV R1,A
        MOV @R1,#0F0H
        INC A
        ORL A,#70H
        MOV R1,A
        MOV A,R2
        MOV @R1,A

; -- entered: the row has been dealt with.
; needs: R3, R4, R6. leaves: A the turned changes.
; cycles: 4.
entered: MOV A,R4
        INC R6
        DJNZ R3,row

; -- foot: the column's layers go back; the next column.
; needs: R5, R6 = 8c + 8. leaves: LAYER, R0 = CHANGED + c + 1.
; cycles: 15.
foot:   MOV A,R6
        RR A
        RR A
        RR A
        ADD A,#4FH          ; LAYER + c
        MOV R1,A
        MOV A,R5
        MOV @R1,A
        MOV A,R1
        ADD A,#0E1H
        MOV R0,A
        JMP more

; -- fn_held: is the Fn key held?
; needs: HELD, CHANGED. leaves: FN; goes on to reset.
; cycles: 15, or 39 to 41.
fn_held: MOV A,#0CDH
        MOVP3 A,@A          ; its place
        MOV R2,A
        ADD A,#0A0H
        CLR A
        JC fn_put           ; 60 and on: there is no Fn key
        MOV A,R2
        SWAP A
        RL A
        ANL A,#0FH          ; its column
        ADD A,#HELD
        MOV R0,A
        ADD A,#10H          ; CHANGED + c
        MOV R1,A
        MOV A,@R0
        XRL A,@R1
        MOV R3,A            ; the keys held before this tick's edges
        MOV A,R2
        CPL A
        ANL A,#7
        INC A               ; 8 - r
        MOVP A,@A
        ANL A,R3
        JZ fn_put
        MOV A,#0FFH
fn_put: MOV R1,#FN
        MOV @R1,A
        JMP reset

; -- settle: with a debounce a key changes once two readings in a row showed it otherwise than held. In pass c a key that
; this reading alone showed so is pending, and isn't changed; HELD has it as it was.
; needs: HELD, CHANGED of read; PENDING. leaves: HELD, CHANGED, PENDING.
; cycles: 8, or 10 and 26 a pass.
        ORG 500H
settle: MOV A,#0F2H
        MOVP3 A,@A
        JZ settled          ; no debounce
        MOV R0,#CHANGED
pass: MOV A,R0
        ADD A,#30H          ; PENDING + c
        MOV R1,A
        MOV A,@R1
        CPL A
        MOV R2,A
        MOV A,@R0
        ANL A,R2
        MOV @R1,A           ; this reading alone
        MOV R2,A
        XRL A,@R0
        MOV @R0,A           ; both
        MOV A,R0
        XRL A,#10H          ; HELD + c
        MOV R1,A
        MOV A,@R1
        XRL A,R2
        MOV @R1,A
        INC R0
        MOV A,R0
        XRL A,#3CH
        JNZ pass
settled: JMP edges
";
