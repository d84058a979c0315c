//! `check` and `decode` of a module that is cut behind each of its bytes.
use crate::inputs::MODULE;
use crate::tables::{Given, Table, holds};

// What `check` says of the prelude and so many of the four declarations behind it.
const CHECK: &str = r#"
[usual]
words = ["bridge", "check", "a"]
pieces = [4096]

[usual.texts]
none = "accepted 0, unproved 0\n"
one = "accepted 1, unproved 0\n"
two = "accepted 2, unproved 0\n"
three = "accepted 3, unproved 0\n"
four = "accepted 4, unproved 0\n"
none_note = ""
one_note = ""
two_note = ""
three_note = ""
four_note = ""

[[test]]
name = "cut_module"

"#;

// What `decode` says of them: the last declaration is the export.
const DECODE: &str = r#"
[usual]
words = ["bridge", "decode", "a"]
pieces = [4096]

[usual.texts]
none = ""
one = ""
two = ""
three = ""
four = "E0: [] [x0:bool] {} |- (((=:(bool -> (bool -> bool))) x0) x0)\n"
none_note = ""
one_note = ""
two_note = ""
three_note = ""
four_note = ""

[[test]]
name = "cut_module"

"#;

const ROWS: &str = r#"
0 1469 6 byte #: NoPrelude
1470 1470 0 none
1471 1492 6 byte 1470: BadText
1493 1494 0 none
1495 1504 6 byte #: BadText
1505 1505 6 byte 1504: UnknownName v
1506 1507 6 byte 1504: UnknownName v0
1508 1509 6 byte #: BadText
1510 1510 6 byte 1509: UnknownName t
1511 1511 6 byte 1509: UnknownName ty
1512 1512 6 byte 1509: UnknownName typ
1513 1514 6 byte #: BadText
1515 1515 6 byte 1514: BadText
1516 1517 6 byte #: BadText
1518 1518 6 byte 1517: UnknownName v
1519 1520 6 byte 1517: UnknownName v1
1521 1522 6 byte #: BadText
1523 1523 6 byte 1522: UnknownName t
1524 1524 6 byte 1522: UnknownName te
1525 1525 6 byte 1522: UnknownName ter
1526 1527 6 byte #: BadText
1528 1528 6 byte 1527: UnknownName v
1529 1530 6 byte #: BadText
1531 1531 6 byte 1530: BadText
1532 1533 6 byte #: BadText
1534 1534 6 byte 1533: UnknownName v
1535 1536 6 byte 1533: UnknownName v2
1537 1538 6 byte #: BadText
1539 1539 6 byte 1538: UnknownName t
1540 1540 6 byte 1538: UnknownName te
1541 1541 6 byte 1538: UnknownName ter
1542 1543 6 byte #: BadText
1544 1544 6 byte 1543: UnknownName v
1545 1546 6 byte #: BadText
1547 1547 6 byte 1546: BadText
1548 1549 6 byte #: BadText
1550 1550 6 byte 1549: UnknownName v
1551 1552 6 byte 1549: UnknownName v3
1553 1554 6 byte #: BadText
1555 1555 6 byte 1554: UnknownName p
1556 1556 6 byte 1554: UnknownName pr
1557 1557 6 byte 1554: UnknownName pro
1558 1558 6 byte 1554: UnknownName proo
1559 1561 6 byte #: BadText
1562 1562 6 byte 1561: UnknownName e
1563 1564 6 byte #: BadText
1565 1565 6 byte 1564: UnknownName v
1566 1567 6 byte #: BadText
1568 1568 6 byte 1567: UnknownName v
1569 1570 6 byte #: BadText
1571 1571 6 byte 1570: UnknownName v
1572 1574 6 byte #: BadText
1575 1575 6 byte 1574: BadText
1576 1577 6 byte #: BadText
1578 1578 6 byte 1577: UnknownName p
1579 1579 6 byte 1577: UnknownName pr
1580 1580 6 byte 1577: UnknownName pro
1581 1581 6 byte 1577: UnknownName proo
1582 1584 6 byte #: BadText
1585 1585 6 byte 1584: UnknownName e
1586 1587 6 byte #: BadText
1588 1588 6 byte 1587: UnknownName v
1589 1590 6 byte #: BadText
1591 1591 6 byte 1590: UnknownName v
1592 1593 6 byte #: BadText
1594 1594 6 byte 1593: UnknownName v
1595 1597 6 byte #: BadText
1598 1598 6 byte 1597: BadText
1599 1600 6 byte #: BadText
1601 1601 6 byte 1600: UnknownName v
1602 1603 6 byte 1600: UnknownName v0
1604 1605 6 byte #: BadText
1606 1606 6 byte 1605: UnknownName t
1607 1607 6 byte 1605: UnknownName ty
1608 1608 6 byte 1605: UnknownName typ
1609 1610 6 byte #: BadText
1611 1611 6 byte 1610: BadText
1612 1613 6 byte #: BadText
1614 1614 6 byte 1613: UnknownName v
1615 1616 6 byte 1613: UnknownName v1
1617 1618 6 byte #: BadText
1619 1619 6 byte 1618: UnknownName t
1620 1620 6 byte 1618: UnknownName te
1621 1621 6 byte 1618: UnknownName ter
1622 1623 6 byte #: BadText
1624 1624 6 byte 1623: UnknownName v
1625 1626 6 byte #: BadText
1627 1627 6 byte 1626: BadText
1628 1629 6 byte #: BadText
1630 1630 6 byte 1629: UnknownName v
1631 1632 6 byte 1629: UnknownName v2
1633 1634 6 byte #: BadText
1635 1635 6 byte 1634: UnknownName t
1636 1636 6 byte 1634: UnknownName te
1637 1637 6 byte 1634: UnknownName ter
1638 1639 6 byte #: BadText
1640 1640 6 byte 1639: UnknownName v
1641 1642 6 byte #: BadText
1643 1643 6 byte 1642: BadText
1644 1645 6 byte #: BadText
1646 1646 6 byte 1645: UnknownName v
1647 1648 6 byte 1645: UnknownName v3
1649 1650 6 byte #: BadText
1651 1651 6 byte 1650: UnknownName p
1652 1652 6 byte 1650: UnknownName pr
1653 1653 6 byte 1650: UnknownName pro
1654 1654 6 byte 1650: UnknownName proo
1655 1657 6 byte #: BadText
1658 1658 6 byte 1657: UnknownName e
1659 1660 6 byte #: BadText
1661 1661 6 byte 1660: UnknownName v
1662 1663 6 byte #: BadText
1664 1664 6 byte 1663: UnknownName v
1665 1666 6 byte #: BadText
1667 1667 6 byte 1666: UnknownName v
1668 1670 6 byte #: BadText
1671 1671 6 byte 1670: BadText
1672 1673 6 byte #: BadText
1674 1674 6 byte 1673: UnknownName e
1675 1675 6 byte #: BadText
1676 1676 6 byte 1673: UnknownName eq_
1677 1677 6 byte 1673: UnknownName eq_m
1678 1680 6 byte #: BadText
1681 1681 6 byte 1680: UnknownName e
1682 1683 6 byte #: BadText
1684 1684 6 byte 1683: UnknownName v
1685 1686 6 byte #: BadText
1687 1687 6 byte 1686: UnknownName v
1688 1689 6 byte #: BadText
1690 1690 6 byte 1689: UnknownName v
1691 1694 6 byte #: BadText
1695 1695 6 byte 1694: UnknownName e
1696 1697 6 byte #: BadText
1698 1698 6 byte 1697: UnknownName v
1699 1700 6 byte #: BadText
1701 1701 6 byte 1700: UnknownName v
1702 1703 6 byte #: BadText
1704 1704 6 byte 1703: UnknownName v
1705 1708 6 byte #: BadText
1709 1709 6 byte 1708: UnknownName a
1710 1710 6 byte 1708: UnknownName ap
1711 1711 6 byte 1708: UnknownName app
1712 1712 6 byte 1708: UnknownName app_
1713 1713 6 byte 1708: UnknownName app_t
1714 1714 6 byte 1708: UnknownName app_th
1715 1716 6 byte #: BadText
1717 1717 6 byte 1716: UnknownName v
1718 1719 6 byte #: BadText
1720 1720 6 byte 1719: UnknownName b
1721 1721 6 byte 1719: UnknownName bo
1722 1722 6 byte 1719: UnknownName boo
1723 1725 6 byte #: BadText
1726 1726 6 byte 1725: UnknownName e
1727 1728 6 byte #: BadText
1729 1729 6 byte 1728: UnknownName v
1730 1731 6 byte #: BadText
1732 1732 6 byte 1731: UnknownName v
1733 1736 6 byte #: BadText
1737 1737 6 byte 1736: UnknownName e
1738 1739 6 byte #: BadText
1740 1740 6 byte 1739: UnknownName v
1741 1742 6 byte #: BadText
1743 1743 6 byte 1742: UnknownName v
1744 1746 6 byte #: BadText
1747 1747 6 byte 1746: UnknownName v
1748 1749 6 byte #: BadText
1750 1750 6 byte 1749: UnknownName v
1751 1753 6 byte #: BadText
1754 1754 6 byte 1753: UnknownName a
1755 1755 6 byte 1753: UnknownName ap
1756 1756 6 byte 1753: UnknownName app
1757 1757 6 byte 1753: UnknownName app_
1758 1758 6 byte 1753: UnknownName app_t
1759 1759 6 byte 1753: UnknownName app_th
1760 1761 6 byte #: BadText
1762 1762 6 byte 1761: UnknownName v
1763 1765 6 byte #: BadText
1766 1766 6 byte 1765: UnknownName a
1767 1767 6 byte 1765: UnknownName ar
1768 1769 6 byte #: BadText
1770 1770 6 byte 1769: UnknownName v
1771 1772 6 byte #: BadText
1773 1773 6 byte 1772: UnknownName b
1774 1774 6 byte 1772: UnknownName bo
1775 1775 6 byte 1772: UnknownName boo
1776 1779 6 byte #: BadText
1780 1780 6 byte 1779: UnknownName e
1781 1782 6 byte #: BadText
1783 1783 6 byte 1782: UnknownName v
1784 1787 6 byte #: BadText
1788 1788 6 byte 1787: UnknownName e
1789 1790 6 byte #: BadText
1791 1791 6 byte 1790: UnknownName v
1792 1794 6 byte #: BadText
1795 1795 6 byte 1794: UnknownName v
1796 1797 6 byte #: BadText
1798 1798 6 byte 1797: UnknownName v
1799 1801 6 byte #: BadText
1802 1802 6 byte 1801: UnknownName r
1803 1803 6 byte 1801: UnknownName re
1804 1804 6 byte 1801: UnknownName ref
1805 1807 6 byte #: BadText
1808 1808 6 byte 1807: UnknownName a
1809 1809 6 byte 1807: UnknownName ar
1810 1811 6 byte #: BadText
1812 1812 6 byte 1811: UnknownName v
1813 1815 6 byte #: BadText
1816 1816 6 byte 1815: UnknownName a
1817 1817 6 byte 1815: UnknownName ar
1818 1819 6 byte #: BadText
1820 1820 6 byte 1819: UnknownName v
1821 1822 6 byte #: BadText
1823 1823 6 byte 1822: UnknownName b
1824 1824 6 byte 1822: UnknownName bo
1825 1825 6 byte 1822: UnknownName boo
1826 1830 6 byte #: BadText
1831 1831 6 byte 1830: UnknownName e
1832 1833 6 byte #: BadText
1834 1834 6 byte 1833: UnknownName v
1835 1838 6 byte #: BadText
1839 1839 6 byte 1838: UnknownName v
1840 1843 6 byte #: BadText
1844 1844 6 byte 1843: UnknownName r
1845 1845 6 byte 1843: UnknownName re
1846 1846 6 byte 1843: UnknownName ref
1847 1848 6 byte #: BadText
1849 1849 6 byte 1848: UnknownName v
1850 1851 6 byte #: BadText
1852 1852 6 byte 1851: UnknownName v
1853 1857 6 byte #: BadText
1858 1858 6 byte 1857: UnknownName r
1859 1859 6 byte 1857: UnknownName re
1860 1860 6 byte 1857: UnknownName ref
1861 1862 6 byte #: BadText
1863 1863 6 byte 1862: UnknownName v
1864 1865 6 byte #: BadText
1866 1866 6 byte 1865: UnknownName v
1867 1868 6 byte #: BadText
1869 1870 0 one
1871 1891 6 byte 1870: BadText
1892 1893 0 one
1894 1905 6 byte #: BadText
1906 1906 6 byte 1905: UnknownName v
1907 1908 6 byte 1905: UnknownName v0
1909 1910 6 byte #: BadText
1911 1911 6 byte 1910: UnknownName t
1912 1912 6 byte 1910: UnknownName ty
1913 1913 6 byte 1910: UnknownName typ
1914 1915 6 byte #: BadText
1916 1916 6 byte 1915: BadText
1917 1918 6 byte #: BadText
1919 1919 6 byte 1918: UnknownName v
1920 1921 6 byte 1918: UnknownName v1
1922 1923 6 byte #: BadText
1924 1924 6 byte 1923: UnknownName t
1925 1925 6 byte 1923: UnknownName te
1926 1926 6 byte 1923: UnknownName ter
1927 1928 6 byte #: BadText
1929 1929 6 byte 1928: UnknownName v
1930 1931 6 byte #: BadText
1932 1932 6 byte 1931: BadText
1933 1934 6 byte #: BadText
1935 1935 6 byte 1934: UnknownName v
1936 1937 6 byte 1934: UnknownName v2
1938 1939 6 byte #: BadText
1940 1940 6 byte 1939: UnknownName t
1941 1941 6 byte 1939: UnknownName te
1942 1942 6 byte 1939: UnknownName ter
1943 1944 6 byte #: BadText
1945 1945 6 byte 1944: UnknownName v
1946 1947 6 byte #: BadText
1948 1948 6 byte 1947: BadText
1949 1950 6 byte #: BadText
1951 1951 6 byte 1950: UnknownName v
1952 1953 6 byte 1950: UnknownName v3
1954 1955 6 byte #: BadText
1956 1956 6 byte 1955: UnknownName t
1957 1957 6 byte 1955: UnknownName te
1958 1958 6 byte 1955: UnknownName ter
1959 1960 6 byte #: BadText
1961 1961 6 byte 1960: UnknownName v
1962 1963 6 byte #: BadText
1964 1964 6 byte 1963: BadText
1965 1966 6 byte #: BadText
1967 1967 6 byte 1966: UnknownName v
1968 1969 6 byte 1966: UnknownName v4
1970 1971 6 byte #: BadText
1972 1972 6 byte 1971: UnknownName p
1973 1973 6 byte 1971: UnknownName pr
1974 1974 6 byte 1971: UnknownName pro
1975 1975 6 byte 1971: UnknownName proo
1976 1978 6 byte #: BadText
1979 1979 6 byte 1978: UnknownName e
1980 1981 6 byte #: BadText
1982 1982 6 byte 1981: UnknownName v
1983 1984 6 byte #: BadText
1985 1985 6 byte 1984: UnknownName v
1986 1987 6 byte #: BadText
1988 1988 6 byte 1987: UnknownName v
1989 1991 6 byte #: BadText
1992 1992 6 byte 1991: BadText
1993 1994 6 byte #: BadText
1995 1995 6 byte 1994: UnknownName v
1996 1997 6 byte 1994: UnknownName v5
1998 1999 6 byte #: BadText
2000 2000 6 byte 1999: UnknownName p
2001 2001 6 byte 1999: UnknownName pr
2002 2002 6 byte 1999: UnknownName pro
2003 2003 6 byte 1999: UnknownName proo
2004 2006 6 byte #: BadText
2007 2007 6 byte 2006: UnknownName e
2008 2009 6 byte #: BadText
2010 2010 6 byte 2009: UnknownName v
2011 2012 6 byte #: BadText
2013 2013 6 byte 2012: UnknownName v
2014 2015 6 byte #: BadText
2016 2016 6 byte 2015: UnknownName v
2017 2019 6 byte #: BadText
2020 2020 6 byte 2019: BadText
2021 2022 6 byte #: BadText
2023 2023 6 byte 2022: UnknownName p
2024 2024 6 byte 2022: UnknownName pr
2025 2025 6 byte 2022: UnknownName pro
2026 2026 6 byte 2022: UnknownName proo
2027 2029 6 byte #: BadText
2030 2030 6 byte 2029: UnknownName e
2031 2032 6 byte #: BadText
2033 2033 6 byte 2032: UnknownName v
2034 2035 6 byte #: BadText
2036 2036 6 byte 2035: UnknownName v
2037 2038 6 byte #: BadText
2039 2039 6 byte 2038: UnknownName v
2040 2042 6 byte #: BadText
2043 2043 6 byte 2042: BadText
2044 2045 6 byte #: BadText
2046 2046 6 byte 2045: UnknownName v
2047 2048 6 byte 2045: UnknownName v0
2049 2050 6 byte #: BadText
2051 2051 6 byte 2050: UnknownName t
2052 2052 6 byte 2050: UnknownName ty
2053 2053 6 byte 2050: UnknownName typ
2054 2055 6 byte #: BadText
2056 2056 6 byte 2055: BadText
2057 2058 6 byte #: BadText
2059 2059 6 byte 2058: UnknownName v
2060 2061 6 byte 2058: UnknownName v1
2062 2063 6 byte #: BadText
2064 2064 6 byte 2063: UnknownName t
2065 2065 6 byte 2063: UnknownName te
2066 2066 6 byte 2063: UnknownName ter
2067 2068 6 byte #: BadText
2069 2069 6 byte 2068: UnknownName v
2070 2071 6 byte #: BadText
2072 2072 6 byte 2071: BadText
2073 2074 6 byte #: BadText
2075 2075 6 byte 2074: UnknownName v
2076 2077 6 byte 2074: UnknownName v2
2078 2079 6 byte #: BadText
2080 2080 6 byte 2079: UnknownName t
2081 2081 6 byte 2079: UnknownName te
2082 2082 6 byte 2079: UnknownName ter
2083 2084 6 byte #: BadText
2085 2085 6 byte 2084: UnknownName v
2086 2087 6 byte #: BadText
2088 2088 6 byte 2087: BadText
2089 2090 6 byte #: BadText
2091 2091 6 byte 2090: UnknownName v
2092 2093 6 byte 2090: UnknownName v3
2094 2095 6 byte #: BadText
2096 2096 6 byte 2095: UnknownName t
2097 2097 6 byte 2095: UnknownName te
2098 2098 6 byte 2095: UnknownName ter
2099 2100 6 byte #: BadText
2101 2101 6 byte 2100: UnknownName v
2102 2103 6 byte #: BadText
2104 2104 6 byte 2103: BadText
2105 2106 6 byte #: BadText
2107 2107 6 byte 2106: UnknownName v
2108 2109 6 byte 2106: UnknownName v4
2110 2111 6 byte #: BadText
2112 2112 6 byte 2111: UnknownName p
2113 2113 6 byte 2111: UnknownName pr
2114 2114 6 byte 2111: UnknownName pro
2115 2115 6 byte 2111: UnknownName proo
2116 2118 6 byte #: BadText
2119 2119 6 byte 2118: UnknownName e
2120 2121 6 byte #: BadText
2122 2122 6 byte 2121: UnknownName v
2123 2124 6 byte #: BadText
2125 2125 6 byte 2124: UnknownName v
2126 2127 6 byte #: BadText
2128 2128 6 byte 2127: UnknownName v
2129 2131 6 byte #: BadText
2132 2132 6 byte 2131: BadText
2133 2134 6 byte #: BadText
2135 2135 6 byte 2134: UnknownName v
2136 2137 6 byte 2134: UnknownName v5
2138 2139 6 byte #: BadText
2140 2140 6 byte 2139: UnknownName p
2141 2141 6 byte 2139: UnknownName pr
2142 2142 6 byte 2139: UnknownName pro
2143 2143 6 byte 2139: UnknownName proo
2144 2146 6 byte #: BadText
2147 2147 6 byte 2146: UnknownName e
2148 2149 6 byte #: BadText
2150 2150 6 byte 2149: UnknownName v
2151 2152 6 byte #: BadText
2153 2153 6 byte 2152: UnknownName v
2154 2155 6 byte #: BadText
2156 2156 6 byte 2155: UnknownName v
2157 2159 6 byte #: BadText
2160 2160 6 byte 2159: BadText
2161 2162 6 byte #: BadText
2163 2163 6 byte 2162: UnknownName e
2164 2164 6 byte #: BadText
2165 2165 6 byte 2162: UnknownName eq_
2166 2166 6 byte 2162: UnknownName eq_m
2167 2169 6 byte #: BadText
2170 2170 6 byte 2169: UnknownName e
2171 2172 6 byte #: BadText
2173 2173 6 byte 2172: UnknownName v
2174 2175 6 byte #: BadText
2176 2176 6 byte 2175: UnknownName v
2177 2178 6 byte #: BadText
2179 2179 6 byte 2178: UnknownName v
2180 2183 6 byte #: BadText
2184 2184 6 byte 2183: UnknownName e
2185 2186 6 byte #: BadText
2187 2187 6 byte 2186: UnknownName v
2188 2189 6 byte #: BadText
2190 2190 6 byte 2189: UnknownName v
2191 2192 6 byte #: BadText
2193 2193 6 byte 2192: UnknownName v
2194 2197 6 byte #: BadText
2198 2198 6 byte 2197: UnknownName a
2199 2199 6 byte 2197: UnknownName ap
2200 2200 6 byte 2197: UnknownName app
2201 2201 6 byte 2197: UnknownName app_
2202 2202 6 byte 2197: UnknownName app_t
2203 2203 6 byte 2197: UnknownName app_th
2204 2205 6 byte #: BadText
2206 2206 6 byte 2205: UnknownName v
2207 2208 6 byte #: BadText
2209 2209 6 byte 2208: UnknownName b
2210 2210 6 byte 2208: UnknownName bo
2211 2211 6 byte 2208: UnknownName boo
2212 2214 6 byte #: BadText
2215 2215 6 byte 2214: UnknownName e
2216 2217 6 byte #: BadText
2218 2218 6 byte 2217: UnknownName v
2219 2220 6 byte #: BadText
2221 2221 6 byte 2220: UnknownName v
2222 2225 6 byte #: BadText
2226 2226 6 byte 2225: UnknownName e
2227 2228 6 byte #: BadText
2229 2229 6 byte 2228: UnknownName v
2230 2231 6 byte #: BadText
2232 2232 6 byte 2231: UnknownName v
2233 2235 6 byte #: BadText
2236 2236 6 byte 2235: UnknownName v
2237 2238 6 byte #: BadText
2239 2239 6 byte 2238: UnknownName v
2240 2242 6 byte #: BadText
2243 2243 6 byte 2242: UnknownName r
2244 2244 6 byte 2242: UnknownName re
2245 2245 6 byte 2242: UnknownName ref
2246 2248 6 byte #: BadText
2249 2249 6 byte 2248: UnknownName a
2250 2250 6 byte 2248: UnknownName ar
2251 2252 6 byte #: BadText
2253 2253 6 byte 2252: UnknownName v
2254 2255 6 byte #: BadText
2256 2256 6 byte 2255: UnknownName b
2257 2257 6 byte 2255: UnknownName bo
2258 2258 6 byte 2255: UnknownName boo
2259 2262 6 byte #: BadText
2263 2263 6 byte 2262: UnknownName e
2264 2265 6 byte #: BadText
2266 2266 6 byte 2265: UnknownName v
2267 2268 6 byte #: BadText
2269 2269 6 byte 2268: UnknownName v
2270 2273 6 byte #: BadText
2274 2274 6 byte 2273: UnknownName v
2275 2277 6 byte #: BadText
2278 2278 6 byte 2277: UnknownName v
2279 2279 6 byte #: BadText
2280 2281 0 two
2282 2300 6 byte 2281: BadText
2301 2302 0 two
2303 2311 6 byte #: BadText
2312 2312 6 byte 2311: UnknownName v
2313 2314 6 byte 2311: UnknownName v0
2315 2316 6 byte #: BadText
2317 2317 6 byte 2316: UnknownName t
2318 2318 6 byte 2316: UnknownName te
2319 2319 6 byte 2316: UnknownName ter
2320 2321 6 byte #: BadText
2322 2322 6 byte 2321: UnknownName b
2323 2323 6 byte 2321: UnknownName bo
2324 2324 6 byte 2321: UnknownName boo
2325 2326 6 byte #: BadText
2327 2327 6 byte 2326: BadText
2328 2329 6 byte #: BadText
2330 2330 6 byte 2329: UnknownName p
2331 2331 6 byte 2329: UnknownName pr
2332 2332 6 byte 2329: UnknownName pro
2333 2333 6 byte 2329: UnknownName proo
2334 2336 6 byte #: BadText
2337 2337 6 byte 2336: UnknownName e
2338 2339 6 byte #: BadText
2340 2340 6 byte 2339: UnknownName b
2341 2341 6 byte 2339: UnknownName bo
2342 2342 6 byte 2339: UnknownName boo
2343 2344 6 byte #: BadText
2345 2345 6 byte 2344: UnknownName v
2346 2347 6 byte #: BadText
2348 2348 6 byte 2347: UnknownName v
2349 2351 6 byte #: BadText
2352 2352 6 byte 2351: BadText
2353 2354 6 byte #: BadText
2355 2355 6 byte 2354: UnknownName v
2356 2357 6 byte 2354: UnknownName v0
2358 2359 6 byte #: BadText
2360 2360 6 byte 2359: UnknownName t
2361 2361 6 byte 2359: UnknownName te
2362 2362 6 byte 2359: UnknownName ter
2363 2364 6 byte #: BadText
2365 2365 6 byte 2364: UnknownName b
2366 2366 6 byte 2364: UnknownName bo
2367 2367 6 byte 2364: UnknownName boo
2368 2369 6 byte #: BadText
2370 2370 6 byte 2369: BadText
2371 2372 6 byte #: BadText
2373 2373 6 byte 2372: UnknownName r
2374 2374 6 byte 2372: UnknownName re
2375 2375 6 byte 2372: UnknownName ref
2376 2377 6 byte #: BadText
2378 2378 6 byte 2377: UnknownName b
2379 2379 6 byte 2377: UnknownName bo
2380 2380 6 byte 2377: UnknownName boo
2381 2382 6 byte #: BadText
2383 2383 6 byte 2382: UnknownName v
2384 2384 6 byte #: BadText
2385 2386 0 three
2387 2405 6 byte 2386: BadText
2406 2407 0 three
2408 2416 6 byte #: BadText
2417 2417 6 byte 2416: UnknownName v
2418 2419 6 byte 2416: UnknownName v0
2420 2421 6 byte #: BadText
2422 2422 6 byte 2421: UnknownName t
2423 2423 6 byte 2421: UnknownName te
2424 2424 6 byte 2421: UnknownName ter
2425 2426 6 byte #: BadText
2427 2427 6 byte 2426: UnknownName b
2428 2428 6 byte 2426: UnknownName bo
2429 2429 6 byte 2426: UnknownName boo
2430 2431 6 byte #: BadText
2432 2432 6 byte 2431: BadText
2433 2434 6 byte #: BadText
2435 2435 6 byte 2434: UnknownName p
2436 2436 6 byte 2434: UnknownName pr
2437 2437 6 byte 2434: UnknownName pro
2438 2438 6 byte 2434: UnknownName proo
2439 2441 6 byte #: BadText
2442 2442 6 byte 2441: UnknownName e
2443 2444 6 byte #: BadText
2445 2445 6 byte 2444: UnknownName b
2446 2446 6 byte 2444: UnknownName bo
2447 2447 6 byte 2444: UnknownName boo
2448 2449 6 byte #: BadText
2450 2450 6 byte 2449: UnknownName v
2451 2452 6 byte #: BadText
2453 2453 6 byte 2452: UnknownName v
2454 2456 6 byte #: BadText
2457 2457 6 byte 2456: BadText
2458 2459 6 byte #: BadText
2460 2460 6 byte 2459: UnknownName v
2461 2462 6 byte 2459: UnknownName v0
2463 2464 6 byte #: BadText
2465 2465 6 byte 2464: UnknownName t
2466 2466 6 byte 2464: UnknownName te
2467 2467 6 byte 2464: UnknownName ter
2468 2469 6 byte #: BadText
2470 2470 6 byte 2469: UnknownName b
2471 2471 6 byte 2469: UnknownName bo
2472 2472 6 byte 2469: UnknownName boo
2473 2474 6 byte #: BadText
2475 2475 6 byte 2474: BadText
2476 2477 6 byte #: BadText
2478 2478 6 byte 2477: UnknownName T
2479 2480 6 byte #: BadText
2481 2481 6 byte 2480: UnknownName v
2482 2482 6 byte #: BadText
2483 2484 0 four
"#;

const CHECKED: Table<'_> = Table {
    head: CHECK,
    given: Given::CutText(MODULE),
    front: "",
    rows: ROWS,
};

const DECODED: Table<'_> = Table {
    head: DECODE,
    given: Given::CutText(MODULE),
    front: "",
    rows: ROWS,
};

#[test]
fn checked(rt: HostRuntime) {
    assert!(rt; holds(&rt, &CHECKED));
}

#[test]
fn decoded(rt: HostRuntime) {
    assert!(rt; holds(&rt, &DECODED));
}
