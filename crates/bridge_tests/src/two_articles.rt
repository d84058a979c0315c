//! `verify` of two articles, of which the first or the second is cut behind each of its bytes.
use crate::inputs::{ONE, TWO};
use crate::tables::{Given, Table, holds};

// The two whole articles; of a name that comes twice the file counts that is given as a text. And what comes where the first alone
// exports, where it doesn't, so that the second assumes its theorem, and of both.
const HEAD: &str = r#"
[usual]
words = ["bridge", "verify", "a", "b"]
pieces = [4096]
article.a = [
    "$version", "$var_y", "$y", "absTerm refl", "$p", "$q", "nil cons cons", "$equals_identity", "$var_y", "$y", "absTerm appTerm",
    "$var_y", "$y", "absTerm appTerm thm",
]
article.b = [
    "$version", "$q", "$p", "nil cons cons", "$equals_identity", "$var_z", "$z", "absTerm appTerm", "$var_z", "$z",
    "absTerm appTerm axiom", "$q", "$p", "$r", "nil cons cons cons", "$equals_identity", "$var_z", "$z", "absTerm appTerm", "$var_z",
    "$z", "absTerm appTerm thm",
]

[usual.texts]
equals_identity = '"=" const "->" typeOp "->" typeOp "bool" typeOp nil opType "bool" typeOp nil opType nil cons cons opType "->" typeOp "->" typeOp "bool" typeOp nil opType "bool" typeOp nil opType nil cons cons opType "bool" typeOp nil opType nil cons cons opType nil cons cons opType constTerm'
first = '''
(; bound 76225024 ;)
thm T0 : proof (eq (arr bool bool) (v0 : term bool => v0) (v0 : term bool => v0)) := refl (arr bool bool) (v0 : term bool => v0).
(; bound 168196608 ;)
thm E0 : v0 : term bool -> v1 : term bool -> v2 : proof v0 -> v3 : proof v1 -> proof (eq (arr bool bool) (v4 : term bool => v4) (v4 : term bool => v4)) := v0 : term bool => v1 : term bool => v2 : proof v0 => v3 : proof v1 => T0.
'''
second = '''
A0 : v0 : term bool -> v1 : term bool -> v2 : proof v0 -> v3 : proof v1 -> proof (eq (arr bool bool) (v4 : term bool => v4) (v4 : term bool => v4)).
(; bound 425259008 ;)
thm E0 : v0 : term bool -> v1 : term bool -> v2 : term bool -> v3 : proof v0 -> v4 : proof v1 -> v5 : proof v2 -> proof (eq (arr bool bool) (v6 : term bool => v6) (v6 : term bool => v6)) := v0 : term bool => v1 : term bool => v2 : term bool => v3 : proof v0 => v4 : proof v1 => v5 : proof v2 => A0 v0 v1 v3 v4.
'''
both = '''
(; bound 76225024 ;)
thm T0 : proof (eq (arr bool bool) (v0 : term bool => v0) (v0 : term bool => v0)) := refl (arr bool bool) (v0 : term bool => v0).
(; bound 168196608 ;)
thm E0 : v0 : term bool -> v1 : term bool -> v2 : proof v0 -> v3 : proof v1 -> proof (eq (arr bool bool) (v4 : term bool => v4) (v4 : term bool => v4)) := v0 : term bool => v1 : term bool => v2 : proof v0 => v3 : proof v1 => T0.
(; bound 252435968 ;)
thm T2 : v0 : term bool -> v1 : term bool -> v2 : proof v0 -> v3 : proof v1 -> proof (eq (arr bool bool) (v4 : term bool => v4) (v4 : term bool => v4)) := v0 : term bool => v1 : term bool => v2 : proof v0 => v3 : proof v1 => E0 v1 v0 v3 v2.
(; bound 425259008 ;)
thm E1 : v0 : term bool -> v1 : term bool -> v2 : term bool -> v3 : proof v0 -> v4 : proof v1 -> v5 : proof v2 -> proof (eq (arr bool bool) (v6 : term bool => v6) (v6 : term bool => v6)) := v0 : term bool => v1 : term bool => v2 : term bool => v3 : proof v0 => v4 : proof v1 => v5 : proof v2 => T2 v0 v1 v3 v4.
'''
first_note = '''
articles 2
assumptions 0
exports 1
declarations 4
bounds 16460780544
verified
'''
second_note = '''
articles 2
assumptions 1
exports 1
declarations 4
bounds 16641617920
verified
'''
both_note = '''
articles 2
assumptions 0
exports 2
declarations 6
bounds 17138475520
verified
'''

[[test]]
name = "two_articles"

"#;

// The parts of each module.
const FRONT: &str = r#""$prelude", "$lemmas", "#;

const FIRST: Table<'_> = Table {
    head: HEAD,
    given: Given::Cut("a", ONE),
    front: FRONT,
    rows: r#"
0 2 0 second
3 8 1 article 1 line 2: BadLine (1)
9 10 0 second
11 12 1 article 1 line 3: BadLine (1)
13 14 0 second
15 19 1 article 1 line 4: BadLine (1)
20 21 0 second
22 26 1 article 1 line 5: BadLine (1)
27 28 0 second
29 30 1 article 1 line 6: BadLine (1)
31 32 0 second
33 37 1 article 1 line 7: BadLine (1)
38 39 0 second
40 41 1 article 1 line 8: BadLine (1)
42 43 0 second
44 45 1 article 1 line 9: BadLine (1)
46 47 0 second
48 52 1 article 1 line 10: BadLine (1)
53 54 0 second
55 59 1 article 1 line 11: BadLine (1)
60 61 0 second
62 63 1 article 1 line 12: BadLine (1)
64 65 0 second
66 70 1 article 1 line 13: BadLine (1)
71 72 0 second
73 74 1 article 1 line 14: BadLine (1)
75 76 0 second
77 78 1 article 1 line 15: BadLine (1)
79 79 1 article 1 line 15: WrongKind (3)
80 82 1 article 1 line 15: BadLine (1)
83 84 0 second
85 90 1 article 1 line 16: BadLine (1)
91 92 0 second
93 94 1 article 1 line 17: BadLine (1)
95 95 1 article 1 line 17: WrongKind (3)
96 97 0 second
98 99 1 article 1 line 18: BadLine (1)
100 101 0 second
102 106 1 article 1 line 19: BadLine (1)
107 108 0 second
109 113 1 article 1 line 20: BadLine (1)
114 115 0 second
116 117 1 article 1 line 21: BadLine (1)
118 119 0 second
120 124 1 article 1 line 22: BadLine (1)
125 126 0 second
127 128 1 article 1 line 23: BadLine (1)
129 130 0 second
131 132 1 article 1 line 24: BadLine (1)
133 133 1 article 1 line 24: WrongKind (3)
134 136 1 article 1 line 24: BadLine (1)
137 138 0 second
139 140 1 article 1 line 25: BadLine (1)
141 142 0 second
143 147 1 article 1 line 26: BadLine (1)
148 149 0 second
150 154 1 article 1 line 27: BadLine (1)
155 156 0 second
157 158 1 article 1 line 28: BadLine (1)
159 160 0 second
161 165 1 article 1 line 29: BadLine (1)
166 167 0 second
168 169 1 article 1 line 30: BadLine (1)
170 171 0 second
172 173 1 article 1 line 31: BadLine (1)
174 174 1 article 1 line 31: WrongKind (3)
175 177 1 article 1 line 31: BadLine (1)
178 179 0 second
180 181 1 article 1 line 32: BadLine (1)
182 183 0 second
184 186 1 article 1 line 33: BadLine (1)
187 188 0 second
189 191 1 article 1 line 34: BadLine (1)
192 193 0 second
194 195 1 article 1 line 35: BadLine (1)
196 197 0 second
198 200 1 article 1 line 36: BadLine (1)
201 201 1 article 1 line 36: WrongKind (3)
202 203 0 second
204 206 1 article 1 line 37: BadLine (1)
207 208 0 second
209 213 1 article 1 line 38: BadLine (1)
214 215 0 second
216 218 1 article 1 line 39: BadLine (1)
219 220 0 second
221 225 1 article 1 line 40: BadLine (1)
226 227 0 second
228 232 1 article 1 line 41: BadLine (1)
233 234 0 second
235 239 1 article 1 line 42: BadLine (1)
240 241 0 second
242 243 1 article 1 line 43: BadLine (1)
244 245 0 second
246 250 1 article 1 line 44: BadLine (1)
251 252 0 second
253 257 1 article 1 line 45: BadLine (1)
258 259 0 second
260 264 1 article 1 line 46: BadLine (1)
265 266 0 second
267 268 1 article 1 line 47: BadLine (1)
269 270 0 second
271 275 1 article 1 line 48: BadLine (1)
276 277 0 second
278 279 1 article 1 line 49: BadLine (1)
280 281 0 second
282 284 1 article 1 line 50: BadLine (1)
285 286 0 second
287 289 1 article 1 line 51: BadLine (1)
290 291 0 second
292 296 1 article 1 line 52: BadLine (1)
297 298 0 second
299 301 1 article 1 line 53: BadLine (1)
302 303 0 second
304 308 1 article 1 line 54: BadLine (1)
309 310 0 second
311 313 1 article 1 line 55: BadLine (1)
314 315 0 second
316 320 1 article 1 line 56: BadLine (1)
321 322 0 second
323 327 1 article 1 line 57: BadLine (1)
328 329 0 second
330 334 1 article 1 line 58: BadLine (1)
335 336 0 second
337 338 1 article 1 line 59: BadLine (1)
339 340 0 second
341 345 1 article 1 line 60: BadLine (1)
346 347 0 second
348 352 1 article 1 line 61: BadLine (1)
353 354 0 second
355 359 1 article 1 line 62: BadLine (1)
360 361 0 second
362 363 1 article 1 line 63: BadLine (1)
364 365 0 second
366 370 1 article 1 line 64: BadLine (1)
371 372 0 second
373 374 1 article 1 line 65: BadLine (1)
375 376 0 second
377 379 1 article 1 line 66: BadLine (1)
380 381 0 second
382 384 1 article 1 line 67: BadLine (1)
385 386 0 second
387 391 1 article 1 line 68: BadLine (1)
392 393 0 second
394 398 1 article 1 line 69: BadLine (1)
399 400 0 second
401 405 1 article 1 line 70: BadLine (1)
406 407 0 second
408 409 1 article 1 line 71: BadLine (1)
410 411 0 second
412 416 1 article 1 line 72: BadLine (1)
417 418 0 second
419 420 1 article 1 line 73: BadLine (1)
421 422 0 second
423 425 1 article 1 line 74: BadLine (1)
426 427 0 second
428 430 1 article 1 line 75: BadLine (1)
431 432 0 second
433 437 1 article 1 line 76: BadLine (1)
438 439 0 second
440 441 1 article 1 line 77: BadLine (1)
442 443 0 second
444 446 1 article 1 line 78: BadLine (1)
447 448 0 second
449 451 1 article 1 line 79: BadLine (1)
452 453 0 second
454 458 1 article 1 line 80: BadLine (1)
459 460 0 second
461 463 1 article 1 line 81: BadLine (1)
464 465 1 article 1 line 81: WrongKind (3)
466 468 1 article 1 line 81: BadLine (1)
469 470 0 second
471 472 1 article 1 line 82: BadLine (1)
473 474 0 second
475 479 1 article 1 line 83: BadLine (1)
480 481 0 second
482 486 1 article 1 line 84: BadLine (1)
487 488 0 second
489 490 1 article 1 line 85: BadLine (1)
491 492 0 second
493 497 1 article 1 line 86: BadLine (1)
498 499 0 second
500 501 1 article 1 line 87: BadLine (1)
502 503 0 second
504 505 1 article 1 line 88: BadLine (1)
506 507 0 second
508 512 1 article 1 line 89: BadLine (1)
513 514 0 second
515 519 1 article 1 line 90: BadLine (1)
520 521 0 second
522 523 1 article 1 line 91: BadLine (1)
524 525 0 second
526 530 1 article 1 line 92: BadLine (1)
531 532 0 second
533 534 1 article 1 line 93: BadLine (1)
535 536 0 second
537 538 1 article 1 line 94: BadLine (1)
539 539 1 article 1 line 94: WrongKind (3)
540 542 1 article 1 line 94: BadLine (1)
543 544 0 second
545 550 1 article 1 line 95: BadLine (1)
551 552 0 second
553 558 1 article 1 line 96: BadLine (1)
559 560 0 second
561 562 1 article 1 line 97: BadLine (1)
563 564 0 second
565 569 1 article 1 line 98: BadLine (1)
570 571 0 second
572 576 1 article 1 line 99: BadLine (1)
577 578 0 second
579 580 1 article 1 line 100: BadLine (1)
581 582 0 second
583 587 1 article 1 line 101: BadLine (1)
588 589 0 second
590 591 1 article 1 line 102: BadLine (1)
592 593 0 second
594 595 1 article 1 line 103: BadLine (1)
596 597 0 second
598 602 1 article 1 line 104: BadLine (1)
603 604 0 second
605 609 1 article 1 line 105: BadLine (1)
610 611 0 second
612 613 1 article 1 line 106: BadLine (1)
614 615 0 second
616 620 1 article 1 line 107: BadLine (1)
621 622 0 second
623 624 1 article 1 line 108: BadLine (1)
625 626 0 second
627 628 1 article 1 line 109: BadLine (1)
629 629 1 article 1 line 109: WrongKind (3)
630 632 1 article 1 line 109: BadLine (1)
633 634 0 second
635 640 1 article 1 line 110: BadLine (1)
641 642 0 second
643 648 1 article 1 line 111: BadLine (1)
649 650 0 second
651 652 1 article 1 line 112: BadLine (1)
653 654 0 both
"#,
};

const SECOND_TO_AXIOM: Table<'_> = Table {
    head: HEAD,
    given: Given::Cut("b", TWO),
    front: FRONT,
    rows: r#"
0 2 0 first
3 8 1 article 2 line 2: BadLine (1)
9 10 0 first
11 12 1 article 2 line 3: BadLine (1)
13 14 0 first
15 19 1 article 2 line 4: BadLine (1)
20 21 0 first
22 26 1 article 2 line 5: BadLine (1)
27 28 0 first
29 30 1 article 2 line 6: BadLine (1)
31 32 0 first
33 37 1 article 2 line 7: BadLine (1)
38 39 0 first
40 41 1 article 2 line 8: BadLine (1)
42 43 0 first
44 45 1 article 2 line 9: BadLine (1)
46 46 1 article 2 line 9: WrongKind (3)
47 49 1 article 2 line 9: BadLine (1)
50 51 0 first
52 53 1 article 2 line 10: BadLine (1)
54 55 0 first
56 60 1 article 2 line 11: BadLine (1)
61 62 0 first
63 67 1 article 2 line 12: BadLine (1)
68 69 0 first
70 71 1 article 2 line 13: BadLine (1)
72 73 0 first
74 78 1 article 2 line 14: BadLine (1)
79 80 0 first
81 82 1 article 2 line 15: BadLine (1)
83 84 0 first
85 86 1 article 2 line 16: BadLine (1)
87 87 1 article 2 line 16: WrongKind (3)
88 90 1 article 2 line 16: BadLine (1)
91 92 0 first
93 94 1 article 2 line 17: BadLine (1)
95 96 0 first
97 99 1 article 2 line 18: BadLine (1)
100 101 0 first
102 104 1 article 2 line 19: BadLine (1)
105 106 0 first
107 108 1 article 2 line 20: BadLine (1)
109 110 0 first
111 113 1 article 2 line 21: BadLine (1)
114 114 1 article 2 line 21: WrongKind (3)
115 116 0 first
117 119 1 article 2 line 22: BadLine (1)
120 121 0 first
122 126 1 article 2 line 23: BadLine (1)
127 128 0 first
129 131 1 article 2 line 24: BadLine (1)
132 133 0 first
134 138 1 article 2 line 25: BadLine (1)
139 140 0 first
141 145 1 article 2 line 26: BadLine (1)
146 147 0 first
148 152 1 article 2 line 27: BadLine (1)
153 154 0 first
155 156 1 article 2 line 28: BadLine (1)
157 158 0 first
159 163 1 article 2 line 29: BadLine (1)
164 165 0 first
166 170 1 article 2 line 30: BadLine (1)
171 172 0 first
173 177 1 article 2 line 31: BadLine (1)
178 179 0 first
180 181 1 article 2 line 32: BadLine (1)
182 183 0 first
184 188 1 article 2 line 33: BadLine (1)
189 190 0 first
191 192 1 article 2 line 34: BadLine (1)
193 194 0 first
195 197 1 article 2 line 35: BadLine (1)
198 199 0 first
200 202 1 article 2 line 36: BadLine (1)
203 204 0 first
205 209 1 article 2 line 37: BadLine (1)
210 211 0 first
212 214 1 article 2 line 38: BadLine (1)
215 216 0 first
217 221 1 article 2 line 39: BadLine (1)
222 223 0 first
224 226 1 article 2 line 40: BadLine (1)
227 228 0 first
229 233 1 article 2 line 41: BadLine (1)
234 235 0 first
236 240 1 article 2 line 42: BadLine (1)
241 242 0 first
243 247 1 article 2 line 43: BadLine (1)
248 249 0 first
250 251 1 article 2 line 44: BadLine (1)
252 253 0 first
254 258 1 article 2 line 45: BadLine (1)
259 260 0 first
261 265 1 article 2 line 46: BadLine (1)
266 267 0 first
268 272 1 article 2 line 47: BadLine (1)
273 274 0 first
275 276 1 article 2 line 48: BadLine (1)
277 278 0 first
279 283 1 article 2 line 49: BadLine (1)
284 285 0 first
286 287 1 article 2 line 50: BadLine (1)
288 289 0 first
290 292 1 article 2 line 51: BadLine (1)
293 294 0 first
295 297 1 article 2 line 52: BadLine (1)
298 299 0 first
300 304 1 article 2 line 53: BadLine (1)
305 306 0 first
307 311 1 article 2 line 54: BadLine (1)
312 313 0 first
314 318 1 article 2 line 55: BadLine (1)
319 320 0 first
321 322 1 article 2 line 56: BadLine (1)
323 324 0 first
325 329 1 article 2 line 57: BadLine (1)
330 331 0 first
332 333 1 article 2 line 58: BadLine (1)
334 335 0 first
336 338 1 article 2 line 59: BadLine (1)
339 340 0 first
341 343 1 article 2 line 60: BadLine (1)
344 345 0 first
346 350 1 article 2 line 61: BadLine (1)
351 352 0 first
353 354 1 article 2 line 62: BadLine (1)
355 356 0 first
357 359 1 article 2 line 63: BadLine (1)
360 361 0 first
362 364 1 article 2 line 64: BadLine (1)
365 366 0 first
367 371 1 article 2 line 65: BadLine (1)
372 373 0 first
374 376 1 article 2 line 66: BadLine (1)
377 378 1 article 2 line 66: WrongKind (3)
379 381 1 article 2 line 66: BadLine (1)
382 383 0 first
384 385 1 article 2 line 67: BadLine (1)
386 387 0 first
388 392 1 article 2 line 68: BadLine (1)
393 394 0 first
395 399 1 article 2 line 69: BadLine (1)
400 401 0 first
402 403 1 article 2 line 70: BadLine (1)
404 405 0 first
406 410 1 article 2 line 71: BadLine (1)
411 412 0 first
413 414 1 article 2 line 72: BadLine (1)
415 416 0 first
417 418 1 article 2 line 73: BadLine (1)
419 420 0 first
421 425 1 article 2 line 74: BadLine (1)
426 427 0 first
428 432 1 article 2 line 75: BadLine (1)
433 434 0 first
435 436 1 article 2 line 76: BadLine (1)
437 438 0 first
439 443 1 article 2 line 77: BadLine (1)
444 445 0 first
446 447 1 article 2 line 78: BadLine (1)
448 449 0 first
450 451 1 article 2 line 79: BadLine (1)
452 452 1 article 2 line 79: WrongKind (3)
453 455 1 article 2 line 79: BadLine (1)
456 457 0 first
458 463 1 article 2 line 80: BadLine (1)
464 465 0 first
466 471 1 article 2 line 81: BadLine (1)
472 473 0 first
474 475 1 article 2 line 82: BadLine (1)
476 477 0 first
478 482 1 article 2 line 83: BadLine (1)
483 484 0 first
485 489 1 article 2 line 84: BadLine (1)
490 491 0 first
492 493 1 article 2 line 85: BadLine (1)
494 495 0 first
496 500 1 article 2 line 86: BadLine (1)
501 502 0 first
503 504 1 article 2 line 87: BadLine (1)
505 506 0 first
507 508 1 article 2 line 88: BadLine (1)
509 510 0 first
511 515 1 article 2 line 89: BadLine (1)
516 517 0 first
518 522 1 article 2 line 90: BadLine (1)
523 524 0 first
525 526 1 article 2 line 91: BadLine (1)
527 528 0 first
529 533 1 article 2 line 92: BadLine (1)
534 535 0 first
536 537 1 article 2 line 93: BadLine (1)
538 539 0 first
540 541 1 article 2 line 94: BadLine (1)
542 542 1 article 2 line 94: WrongKind (3)
543 545 1 article 2 line 94: BadLine (1)
546 547 0 first
548 553 1 article 2 line 95: BadLine (1)
554 555 0 first
556 561 1 article 2 line 96: BadLine (1)
562 563 0 first
564 567 1 article 2 line 97: BadLine (1)
568 569 0 first
"#,
};

const SECOND_BEHIND_AXIOM: Table<'_> = Table {
    head: HEAD,
    given: Given::Cut("b", TWO),
    front: FRONT,
    rows: r#"
570 571 1 article 2 line 98: BadLine (1)
572 573 0 first
574 578 1 article 2 line 99: BadLine (1)
579 580 0 first
581 585 1 article 2 line 100: BadLine (1)
586 587 0 first
588 589 1 article 2 line 101: BadLine (1)
590 591 0 first
592 596 1 article 2 line 102: BadLine (1)
597 598 0 first
599 600 1 article 2 line 103: BadLine (1)
601 602 0 first
603 604 1 article 2 line 104: BadLine (1)
605 605 1 article 2 line 104: WrongKind (3)
606 608 1 article 2 line 104: BadLine (1)
609 610 0 first
611 612 1 article 2 line 105: BadLine (1)
613 614 0 first
615 619 1 article 2 line 106: BadLine (1)
620 621 0 first
622 626 1 article 2 line 107: BadLine (1)
627 628 0 first
629 630 1 article 2 line 108: BadLine (1)
631 632 0 first
633 637 1 article 2 line 109: BadLine (1)
638 639 0 first
640 641 1 article 2 line 110: BadLine (1)
642 643 0 first
644 645 1 article 2 line 111: BadLine (1)
646 646 1 article 2 line 111: WrongKind (3)
647 649 1 article 2 line 111: BadLine (1)
650 651 0 first
652 653 1 article 2 line 112: BadLine (1)
654 655 0 first
656 660 1 article 2 line 113: BadLine (1)
661 662 0 first
663 667 1 article 2 line 114: BadLine (1)
668 669 0 first
670 671 1 article 2 line 115: BadLine (1)
672 673 0 first
674 678 1 article 2 line 116: BadLine (1)
679 680 0 first
681 682 1 article 2 line 117: BadLine (1)
683 684 0 first
685 686 1 article 2 line 118: BadLine (1)
687 687 1 article 2 line 118: WrongKind (3)
688 690 1 article 2 line 118: BadLine (1)
691 692 0 first
693 694 1 article 2 line 119: BadLine (1)
695 696 0 first
697 699 1 article 2 line 120: BadLine (1)
700 701 0 first
702 704 1 article 2 line 121: BadLine (1)
705 706 0 first
707 709 1 article 2 line 122: BadLine (1)
710 711 0 first
712 713 1 article 2 line 123: BadLine (1)
714 715 0 first
716 718 1 article 2 line 124: BadLine (1)
719 719 1 article 2 line 124: WrongKind (3)
720 721 0 first
722 724 1 article 2 line 125: BadLine (1)
725 726 0 first
727 731 1 article 2 line 126: BadLine (1)
732 733 0 first
734 736 1 article 2 line 127: BadLine (1)
737 738 0 first
739 743 1 article 2 line 128: BadLine (1)
744 745 0 first
746 750 1 article 2 line 129: BadLine (1)
751 752 0 first
753 757 1 article 2 line 130: BadLine (1)
758 759 0 first
760 761 1 article 2 line 131: BadLine (1)
762 763 0 first
764 768 1 article 2 line 132: BadLine (1)
769 770 0 first
771 775 1 article 2 line 133: BadLine (1)
776 777 0 first
778 782 1 article 2 line 134: BadLine (1)
783 784 0 first
785 786 1 article 2 line 135: BadLine (1)
787 788 0 first
789 793 1 article 2 line 136: BadLine (1)
794 795 0 first
796 797 1 article 2 line 137: BadLine (1)
798 799 0 first
800 802 1 article 2 line 138: BadLine (1)
803 804 0 first
805 807 1 article 2 line 139: BadLine (1)
808 809 0 first
810 814 1 article 2 line 140: BadLine (1)
815 816 0 first
817 819 1 article 2 line 141: BadLine (1)
820 821 0 first
822 826 1 article 2 line 142: BadLine (1)
827 828 0 first
829 831 1 article 2 line 143: BadLine (1)
832 833 0 first
834 838 1 article 2 line 144: BadLine (1)
839 840 0 first
841 845 1 article 2 line 145: BadLine (1)
846 847 0 first
848 852 1 article 2 line 146: BadLine (1)
853 854 0 first
855 856 1 article 2 line 147: BadLine (1)
857 858 0 first
859 863 1 article 2 line 148: BadLine (1)
864 865 0 first
866 870 1 article 2 line 149: BadLine (1)
871 872 0 first
873 877 1 article 2 line 150: BadLine (1)
878 879 0 first
880 881 1 article 2 line 151: BadLine (1)
882 883 0 first
884 888 1 article 2 line 152: BadLine (1)
889 890 0 first
891 892 1 article 2 line 153: BadLine (1)
893 894 0 first
895 897 1 article 2 line 154: BadLine (1)
898 899 0 first
900 902 1 article 2 line 155: BadLine (1)
903 904 0 first
905 909 1 article 2 line 156: BadLine (1)
910 911 0 first
912 916 1 article 2 line 157: BadLine (1)
917 918 0 first
919 923 1 article 2 line 158: BadLine (1)
924 925 0 first
926 927 1 article 2 line 159: BadLine (1)
928 929 0 first
930 934 1 article 2 line 160: BadLine (1)
935 936 0 first
937 938 1 article 2 line 161: BadLine (1)
939 940 0 first
941 943 1 article 2 line 162: BadLine (1)
944 945 0 first
946 948 1 article 2 line 163: BadLine (1)
949 950 0 first
951 955 1 article 2 line 164: BadLine (1)
956 957 0 first
958 959 1 article 2 line 165: BadLine (1)
960 961 0 first
962 964 1 article 2 line 166: BadLine (1)
965 966 0 first
967 969 1 article 2 line 167: BadLine (1)
970 971 0 first
972 976 1 article 2 line 168: BadLine (1)
977 978 0 first
979 981 1 article 2 line 169: BadLine (1)
982 983 1 article 2 line 169: WrongKind (3)
984 986 1 article 2 line 169: BadLine (1)
987 988 0 first
989 990 1 article 2 line 170: BadLine (1)
991 992 0 first
993 997 1 article 2 line 171: BadLine (1)
998 999 0 first
1000 1004 1 article 2 line 172: BadLine (1)
1005 1006 0 first
1007 1008 1 article 2 line 173: BadLine (1)
1009 1010 0 first
1011 1015 1 article 2 line 174: BadLine (1)
1016 1017 0 first
1018 1019 1 article 2 line 175: BadLine (1)
1020 1021 0 first
1022 1023 1 article 2 line 176: BadLine (1)
1024 1025 0 first
1026 1030 1 article 2 line 177: BadLine (1)
1031 1032 0 first
1033 1037 1 article 2 line 178: BadLine (1)
1038 1039 0 first
1040 1041 1 article 2 line 179: BadLine (1)
1042 1043 0 first
1044 1048 1 article 2 line 180: BadLine (1)
1049 1050 0 first
1051 1052 1 article 2 line 181: BadLine (1)
1053 1054 0 first
1055 1056 1 article 2 line 182: BadLine (1)
1057 1057 1 article 2 line 182: WrongKind (3)
1058 1060 1 article 2 line 182: BadLine (1)
1061 1062 0 first
1063 1068 1 article 2 line 183: BadLine (1)
1069 1070 0 first
1071 1076 1 article 2 line 184: BadLine (1)
1077 1078 0 first
1079 1080 1 article 2 line 185: BadLine (1)
1081 1082 0 first
1083 1087 1 article 2 line 186: BadLine (1)
1088 1089 0 first
1090 1094 1 article 2 line 187: BadLine (1)
1095 1096 0 first
1097 1098 1 article 2 line 188: BadLine (1)
1099 1100 0 first
1101 1105 1 article 2 line 189: BadLine (1)
1106 1107 0 first
1108 1109 1 article 2 line 190: BadLine (1)
1110 1111 0 first
1112 1113 1 article 2 line 191: BadLine (1)
1114 1115 0 first
1116 1120 1 article 2 line 192: BadLine (1)
1121 1122 0 first
1123 1127 1 article 2 line 193: BadLine (1)
1128 1129 0 first
1130 1131 1 article 2 line 194: BadLine (1)
1132 1133 0 first
1134 1138 1 article 2 line 195: BadLine (1)
1139 1140 0 first
1141 1142 1 article 2 line 196: BadLine (1)
1143 1144 0 first
1145 1146 1 article 2 line 197: BadLine (1)
1147 1147 1 article 2 line 197: WrongKind (3)
1148 1150 1 article 2 line 197: BadLine (1)
1151 1152 0 first
1153 1158 1 article 2 line 198: BadLine (1)
1159 1160 0 first
1161 1166 1 article 2 line 199: BadLine (1)
1167 1168 0 first
1169 1170 1 article 2 line 200: BadLine (1)
1171 1172 0 both
"#,
};

#[test]
fn first_cut(rt: HostRuntime) {
    assert!(rt; holds(&rt, &FIRST));
}

#[test]
fn second_cut_to_its_axiom(rt: HostRuntime) {
    assert!(rt; holds(&rt, &SECOND_TO_AXIOM));
}

#[test]
fn second_cut_behind_its_axiom(rt: HostRuntime) {
    assert!(rt; holds(&rt, &SECOND_BEHIND_AXIOM));
}
